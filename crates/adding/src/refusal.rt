// What is refused of a transition that is to be added.
ghost use Rattle.std.specs.Prelude.{◌≡◌};
ghost use Rattle.terms.specs.Answer.{refusal_of};
ghost use Rattle.terms.specs.Check.{automaton_refusal};
ghost use Rattle.adding_terms.specs.Adding.{wrong_transition, adding_refusal};

use automata::check::{HEAD, TRANSITION, check_automaton, transition_count, transition_fits};
use automata::limits::MOST_TRANSITIONS;
use checks::alphabet::check_alphabet;
use checks::bytes::copy_at;
use form_bytes::layout;
use forms::check::check_form;
use terms::refusals::Refusal;

// The new transition is not whole, or names what does not exist. It is tested as the only transition of an automaton with the same states.
fn wrong_transition(alphabet: &[u8], automaton: &[u8], transition: &[u8]) -> bool
    requires { automaton_refusal alphabet.now automaton.now ≡ 0 }
    ensures { result ≡ wrong_transition alphabet.now automaton.now transition.now }
{
    if transition.len() != TRANSITION {
        return true;
    }
    let mut alone = [0u8; HEAD + TRANSITION];
    alone[0] = automaton[0];
    copy_at(transition, &mut alone, HEAD);
    !transition_fits(alphabet, &alone, 0)
}

// What is refused of alphabet, old automaton, new transition, form and the length of the slice. An automaton that is full gets 14 before its states and transitions
// are looked at, because the longer one would be too long.
#[tactic(auto, using(terms::proofs::InTurn::in_turn), unfolding(adding_terms::specs::Adding::adding_refusal))]
pub fn check_adding(
    alphabet: &[u8],
    form: &[u8],
    automaton: &[u8],
    transition: &[u8],
    numbers: usize,
) -> Result<(), Refusal>
    ensures { refusal_of result ≡ adding_refusal alphabet.now form.now automaton.now transition.now numbers }
{
    check_alphabet(alphabet)?;
    if MOST_TRANSITIONS <= transition_count(automaton) {
        return Err(Refusal::AutomatonLength);
    }
    check_automaton(alphabet, automaton)?;
    if wrong_transition(alphabet, automaton, transition) {
        return Err(Refusal::NewTransition);
    }
    check_form(alphabet, form)?;
    if numbers < layout::rule_count(form) {
        return Err(Refusal::WorkShort);
    }
    Ok(())
}
