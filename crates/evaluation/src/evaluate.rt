// Evaluating a form: the relation of each rule from those of lower rules, and the mask of the start, without unfolding the tree.
ghost use Rattle.std.specs.Prelude.{◌≡◌, length};
ghost use Rattle.terms.specs.Answer.{answer, answer_of, refusal_of};
ghost use Rattle.terms.specs.Calls.{lent_after, evaluation_refusal, relations_of, form_mask};
ghost use Rattle.evaluation.specs.Evaluation.{RightByRuns};

use automata::check::check_automaton;
use checks::alphabet::check_alphabet;
use entries::entry::states_of;
use entries::evaluator::Evaluator;
use form_bytes::layout;
use forms::check::check_form;
use forms::opened::part_form;
use terms::Rule;
use terms::refusals::Refusal;

// What is refused of alphabet, automaton, form and the length of the slice.
#[tactic(auto, using(terms::proofs::InTurn::in_turn), unfolding(terms::specs::Calls::evaluation_refusal))]
fn check_evaluation(
    alphabet: &[u8],
    automaton: &[u8],
    form: &[u8],
    numbers: usize,
) -> Result<(), Refusal>
    ensures { refusal_of result ≡ evaluation_refusal alphabet.now automaton.now form.now numbers }
{
    check_alphabet(alphabet)?;
    check_automaton(alphabet, automaton)?;
    check_form(alphabet, form)?;
    if numbers < layout::rule_count(form) {
        return Err(Refusal::WorkShort);
    }
    Ok(())
}

// Evaluates a form that the checks let through: the answer is the mask, and the slice ends with the rules' entries, its later numbers kept.
pub fn evaluate_checked(alphabet: &[u8], automaton: &[u8], form: &[u8], relations: &mut [u64]) -> u8
    requires { evaluation_refusal alphabet.now automaton.now form.now (length relations.old) ≡ 0 }
    ensures value { result ≡ form_mask alphabet.now automaton.now form.now }
    ensures relations_after { relations.new ≡ lent_after 0 (relations_of alphabet.now automaton.now form.now) relations.old }
{
    let opened = part_form(alphabet, form);
    let evaluator = Evaluator::new(opened.table, automaton);
    evaluator.write_entries(Rule(0), opened.table.count(), relations);
    states_of(relations, opened.start)
}

// Evaluates a form: refused by 3 and 4 for the alphabet, 14 to 16 for the automaton, 18 for the form, 28 where the form carries another alphabet, 19 for a slice
// with fewer numbers than the form has rules. The slice ends with the rules' entries, its later numbers kept. The entries and the mask are what runs say.
#[tactic(auto, using(terms::proofs::InTurn::in_turn))]
pub fn evaluate(
    alphabet: &[u8],
    automaton: &[u8],
    form: &[u8],
    relations: &mut [u64],
) -> Result<u8, Refusal>
    ensures answer { answer_of result ≡ answer (evaluation_refusal alphabet.now automaton.now form.now (length relations.old)) (form_mask alphabet.now automaton.now form.now) }
    ensures relations { relations.new ≡ lent_after (evaluation_refusal alphabet.now automaton.now form.now (length relations.old)) (relations_of alphabet.now automaton.now form.now) relations.old }
    ensures runs { RightByRuns alphabet.now automaton.now form.now (answer_of result) relations.new }
{
    check_evaluation(alphabet, automaton, form, relations.len())?;
    Ok(evaluate_checked(alphabet, automaton, form, relations))
}
