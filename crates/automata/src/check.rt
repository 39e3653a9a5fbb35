// The automaton: its number of states, its final states, and its transitions, of 6 bytes each.
ghost use Rattle.std.specs.Prelude.{◌≡◌, ◌+◌, ◌*◌, ◌≤◌, length};
ghost use Rattle.terms.specs.Answer.{refusal_of};
ghost use Rattle.terms.specs.Test.{every};
ghost use Rattle.terms.specs.Sheet.{state_count, transition_count, transition_byte};
ghost use Rattle.terms.specs.Check.{child_fits, transition_fits, wrong_length, wrong_states, automaton_refusal};

use crate::limits::{MOST_STATES, MOST_TRANSITIONS};
use checks::alphabet;
use checks::limits::HIGHEST_RANK;
use terms::refusals::Refusal;
use terms::{State, Terminal};

// How many bytes stand before the transitions: the number of states, and the final states.
pub const HEAD: usize = 2;

// Where the child states stand in a transition: behind its terminal and its target.
const CHILDREN: usize = 2;

// How many bytes a transition has: it has as many child states as the highest rank.
pub const TRANSITION: usize = CHILDREN + HIGHEST_RANK as usize;

// What represents an unused child state.
const UNUSED: u8 = 0xFF;

// How many transitions stand whole in the automaton.
pub fn transition_count(automaton: &[u8]) -> usize
    ensures { result ≡ transition_count automaton.now }
{
    automaton.len().saturating_sub(HEAD) / TRANSITION
}

// Child state `j` of a transition whose terminal has the rank `rank` is a state where it is used, else unused.
fn child_fits(states: u8, rank: u8, j: u8, child: State) -> bool
    ensures { result ≡ child_fits states rank j child.0 }
{
    if j < rank {
        return child.0 < states;
    }
    child.0 == UNUSED
}

// The child states of transition `i`, whose terminal has the rank `rank`, all fit.
fn children_fit(automaton: &[u8], i: usize, rank: u8) -> bool
    requires { 2 + 6 * i + 6 ≤ length automaton.now }
    ensures { result ≡ every 4 (λ j. child_fits (state_count automaton.now) rank j (transition_byte automaton.now i (2 + j))) }
{
    let states = automaton[0];
    for j in (0..HIGHEST_RANK).rev() {
        let child = State(automaton[HEAD + TRANSITION * i + (CHILDREN + j as usize)]);
        if !child_fits(states, rank, j, child) {
            return false;
        }
    }
    true
}

// Transition `i` names a terminal of the alphabet and states of the automaton, and its unused child states are unused.
pub fn transition_fits(alphabet: &[u8], automaton: &[u8], i: usize) -> bool
    requires { 2 + 6 * i + 6 ≤ length automaton.now }
    ensures { result ≡ transition_fits alphabet.now automaton.now i }
{
    let at = HEAD + TRANSITION * i;
    let terminal = Terminal(automaton[at]);
    let target = State(automaton[at + 1]);
    if alphabet.len() <= terminal.0 as usize {
        return false;
    }
    if automaton[0] <= target.0 {
        return false;
    }
    children_fit(automaton, i, alphabet::rank_of(alphabet, terminal))
}

// The transitions all fit.
fn transitions_fit(alphabet: &[u8], automaton: &[u8]) -> bool
    ensures { result ≡ every (transition_count automaton.now) (transition_fits alphabet.now automaton.now) }
{
    for i in (0..transition_count(automaton)).rev() {
        if !transition_fits(alphabet, automaton, i) {
            return false;
        }
    }
    true
}

// The bytes are no head with whole transitions behind it, or the transitions are too many.
fn wrong_length(automaton: &[u8]) -> bool
    ensures { result ≡ wrong_length automaton.now }
{
    let length = automaton.len();
    if length < HEAD {
        return true;
    }
    if (length - HEAD) % TRANSITION != 0 {
        return true;
    }
    MOST_TRANSITIONS < transition_count(automaton)
}

// There are no states or too many, or a final state is none of them.
fn wrong_states(states: u8, finals: u8) -> bool
    ensures { result ≡ wrong_states states finals }
{
    if states < 1 {
        return true;
    }
    if MOST_STATES < states {
        return true;
    }
    (1u16 << states) <= finals as u16
}

// What is refused of an automaton over an alphabet: 14 for its length, 15 for its states, 16 for a transition.
pub fn check_automaton(alphabet: &[u8], automaton: &[u8]) -> Result<(), Refusal>
    ensures { refusal_of result ≡ automaton_refusal alphabet.now automaton.now }
{
    if wrong_length(automaton) {
        return Err(Refusal::AutomatonLength);
    }
    if wrong_states(automaton[0], automaton[1]) {
        return Err(Refusal::States);
    }
    if !transitions_fit(alphabet, automaton) {
        return Err(Refusal::Transition);
    }
    Ok(())
}
