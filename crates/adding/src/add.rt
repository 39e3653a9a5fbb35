// Adding a transition: the relations that depend on its terminal are worked out again for the longer automaton, the others are kept.
ghost use Rattle.std.specs.Prelude.{◌≡◌, ◌++◌, ◌+◌, ◌≤◌, length, drop};
ghost use Rattle.terms.specs.Answer.{answer, answer_of};
ghost use Rattle.terms.specs.Calls.{lent_after};
ghost use Rattle.adding_terms.specs.Adding.{longer, adding_refusal, added_relations, added_mask};
ghost use Rattle.adding.specs.Added.{RightlyAdded};

use crate::refusal::check_adding;
use automata::check::{HEAD, TRANSITION};
use automata::limits::MOST_TRANSITIONS;
use checks::bytes::copy_at;
use entries::entry::states_of;
use entries::evaluator::Evaluator;
use forms::opened::part_form;
use redoing::redo::redo_relations;
use terms::Terminal;
use terms::refusals::Refusal;

// The length of the longest automaton.
const LONGEST: usize = HEAD + TRANSITION * MOST_TRANSITIONS;

// The longer automaton at the front of a slice: the new transition stands behind the old ones.
fn lengthen(automaton: &[u8], transition: &[u8], slice: &mut [u8])
    requires { length automaton.now + length transition.now ≤ length slice.old }
    ensures { slice.new ≡ longer automaton.now transition.now ++ drop (length automaton.now + length transition.now) slice.old }
{
    copy_at(automaton, slice, 0);
    copy_at(transition, slice, automaton.len());
}

// Adds a transition that the checks let through: the answer is the mask, and the slice ends with the rules' entries, its later numbers kept.
fn add_checked(
    alphabet: &[u8],
    form: &[u8],
    automaton: &[u8],
    transition: &[u8],
    relations: &mut [u64],
) -> u8
    requires { adding_refusal alphabet.now form.now automaton.now transition.now (length relations.old) ≡ 0 }
    ensures value { result ≡ added_mask alphabet.now form.now automaton.now transition.now relations.old }
    ensures relations_after { relations.new ≡ lent_after 0 (added_relations alphabet.now form.now automaton.now transition.now relations.old) relations.old }
{
    let mut longer = [0u8; LONGEST];
    lengthen(automaton, transition, &mut longer);
    let end = automaton.len() + TRANSITION;
    let terminal = Terminal(transition[0]);
    let opened = part_form(alphabet, form);
    let evaluator = Evaluator::new(opened.table, &longer[..end]);
    redo_relations(&evaluator, terminal, relations);
    states_of(relations, opened.start)
}

// Adds a transition to an automaton whose relations are lent: refused by 3 and 4 for the alphabet, 14 to 16 for the automaton (14 also where it is full), 29 for the
// transition, 18 for the form, 28 where the form carries another alphabet, 19 for a slice with fewer numbers than the form has rules. An entry is redone for the
// longer automaton exactly where its rule depends on the transition's terminal, from the entries as they then are; every other number is kept. The answer is the
// mask of the start's entry.
#[tactic(auto, using(terms::proofs::InTurn::in_turn))]
pub fn add_transition(
    alphabet: &[u8],
    form: &[u8],
    automaton: &[u8],
    transition: &[u8],
    relations: &mut [u64],
) -> Result<u8, Refusal>
    ensures answer { answer_of result ≡ answer (adding_refusal alphabet.now form.now automaton.now transition.now (length relations.old)) (added_mask alphabet.now form.now automaton.now transition.now relations.old) }
    ensures relations { relations.new ≡ lent_after (adding_refusal alphabet.now form.now automaton.now transition.now (length relations.old)) (added_relations alphabet.now form.now automaton.now transition.now relations.old) relations.old }
    ensures added { RightlyAdded alphabet.now form.now automaton.now transition.now relations.old (answer_of result) relations.new }
{
    check_adding(alphabet, form, automaton, transition, relations.len())?;
    Ok(add_checked(alphabet, form, automaton, transition, relations))
}
