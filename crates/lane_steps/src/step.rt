// The states that a node can take in each of eight lanes, by the transitions of its terminal. A child's lanes are eight sets of states in one number.
ghost use Rattle.std.specs.Prelude.{◌≡◌, ◌&&◌, ℕ, ◌≤◌, ◌<◌, eqb, length, get_or, take};
ghost use Rattle.terms.specs.Grammar.{terminal_rank};
ghost use Rattle.terms.specs.Automaton.{all_in, step};
ghost use Rattle.terms.specs.Relation.{matrix};
ghost use Rattle.terms.specs.Sheet.{transition_count, transition_byte, transitions_of};
ghost use Rattle.transitions.specs.Step.{pair_of, pairs_of};
ghost use Rattle.blackboard_terms.specs.Step.{lanes_at, LanesAre};

use terms::{State, Terminal};
use transition_links::links::LinkedAutomaton;

// A 1 in each lane.
pub const LANES: u64 = 0x0101_0101_0101_0101;

// The lanes, a 1 for each, in which the states are in the children's sets, one by one.
fn lanes_with(children: &[u64], states: &[u8]) -> u64
    requires { (length children.now ≡ length states.now) × ((j : ℕ) → get_or states.now j 0 < 8) }
    ensures { result ≡ matrix (λ p q. eqb q 0 && all_in (lanes_at p children.now) states.now) }
{
    let mut lanes = LANES;
    for (child, state) in children.iter().zip(states) {
        lanes = (child >> state) & lanes;
    }
    lanes
}

// The target of transition i in each lane in which its child states are in the children's sets.
fn targets_of(linked: &LinkedAutomaton, i: usize, children: &[u64]) -> u64
    requires { (i < transition_count linked.now.automaton.now) × (length children.now ≡ terminal_rank linked.now.alphabet.now (transition_byte linked.now.automaton.now i 0)) }
    ensures { LanesAre 8 result (λ p. pair_of linked.now.automaton.now i (lanes_at p children.now) (length children.now)) }
{
    let at = 2 + 6 * i;
    let first = at + 2;
    let end = first + children.len();
    let target = State(linked.automaton[at + 1]);
    lanes_with(children, &linked.automaton[first..end]) << target.0
}

// The targets of all transitions of a terminal.
fn walk(linked: &LinkedAutomaton, terminal: Terminal, children: &[u64]) -> u64
    requires { length children.now ≡ terminal_rank linked.now.alphabet.now terminal.0 }
    ensures { LanesAre 8 result (λ p. pairs_of linked.now.automaton.now terminal.0 (lanes_at p children.now) (length children.now)) }
{
    let mut targets: u64 = 0;
    for i in linked.transitions_of(terminal) {
        targets = targets_of(linked, i, children) | targets;
    }
    targets
}

// The states that a node can take in each lane, whose children can take the sets of that lane. Only as many children are read as the terminal's rank.
pub fn step_lanes(linked: &LinkedAutomaton, terminal: Terminal, children: &[u64]) -> u64
    requires { (terminal.0 < length linked.now.alphabet.now) × (terminal_rank linked.now.alphabet.now terminal.0 ≤ length children.now) }
    ensures { LanesAre 8 result (λ p. step (transitions_of linked.now.alphabet.now linked.now.automaton.now) terminal.0 (lanes_at p (take (terminal_rank linked.now.alphabet.now terminal.0) children.now))) }
{
    let rank = linked.alphabet[terminal.0 as usize] as usize;
    walk(linked, terminal, &children[..rank])
}
