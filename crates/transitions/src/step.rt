// The states that a node can take, by the transitions of its terminal.
ghost use Rattle.std.specs.Prelude.{◌≡◌, ℕ, ◌<◌, length, get_or};
ghost use Rattle.terms.specs.Grammar.{terminal_rank};
ghost use Rattle.terms.specs.Automaton.{all_in};
ghost use Rattle.terms.specs.Sheet.{transition_count, transition_byte};
ghost use Rattle.transitions.specs.Step.{closed_step, open_step, pair_of, pairs_of};

use terms::{State, Terminal};
use transition_links::links::LinkedAutomaton;

// Whether the states are in the sets, one by one.
fn all_in(sets: &[u8], states: &[u8]) -> bool
    requires { (length sets.now ≡ length states.now) × ((j : ℕ) → get_or states.now j 0 < 8) }
    ensures { result ≡ all_in sets.now states.now }
{
    for (set, state) in sets.iter().zip(states) {
        if (set >> state) % 2 == 0 {
            return false;
        }
    }
    true
}

// The state at a child, state 0 where there is no such child.
fn state_at(states: &[u8], child: usize) -> State
    ensures { result.0 ≡ get_or states.now child 0 }
{
    State(states.get(child).copied().unwrap_or(0))
}

// The pair that transition i gives a node of its terminal: from the state at the hole to the target, where its child states are in the sets.
fn pair_of(linked: &LinkedAutomaton, i: usize, sets: &[u8], hole: usize) -> u64
    requires { (i < transition_count linked.now.automaton.now) × (length sets.now ≡ terminal_rank linked.now.alphabet.now (transition_byte linked.now.automaton.now i 0)) }
    ensures { result ≡ pair_of linked.now.automaton.now i sets.now hole }
{
    let at = 2 + 6 * i;
    let first = at + 2;
    let end = first + sets.len();
    let states = &linked.automaton[first..end];
    if all_in(sets, states) {
        let from = state_at(states, hole);
        let to = State(linked.automaton[at + 1]);
        return 1u64 << (8 * (from.0 as u64) + to.0 as u64);
    }
    0
}

// The pairs of all transitions of a terminal.
fn walk(linked: &LinkedAutomaton, terminal: Terminal, sets: &[u8], hole: usize) -> u64
    requires { length sets.now ≡ terminal_rank linked.now.alphabet.now terminal.0 }
    ensures { result ≡ pairs_of linked.now.automaton.now terminal.0 sets.now hole }
{
    let mut pairs: u64 = 0;
    for i in linked.transitions_of(terminal) {
        pairs = pair_of(linked, i, sets, hole) | pairs;
    }
    pairs
}

// The states that a node can take, whose children can take the lent sets of states. Only as many sets are read as the terminal's rank.
pub fn step_closed(linked: &LinkedAutomaton, terminal: Terminal, sets: &[u8; 4]) -> u8
    requires { terminal.0 < length linked.now.alphabet.now }
    ensures { result ≡ closed_step linked.now.alphabet.now linked.now.automaton.now terminal.0 sets.now }
{
    let rank = linked.alphabet[terminal.0 as usize] as usize;
    (walk(linked, terminal, &sets[..rank], rank) % 256) as u8
}

// The relation of a node whose child at the hole, counted from 0, is its open place. The set at the hole is not read.
pub fn step_open(linked: &LinkedAutomaton, terminal: Terminal, sets: [u8; 4], hole: usize) -> u64
    requires { (terminal.0 < length linked.now.alphabet.now) × (hole < terminal_rank linked.now.alphabet.now terminal.0) }
    ensures { result ≡ open_step linked.now.alphabet.now linked.now.automaton.now terminal.0 sets hole }
{
    let rank = linked.alphabet[terminal.0 as usize] as usize;
    let mut opened = sets;
    opened[hole] = 255;
    walk(linked, terminal, &opened[..rank], hole)
}
