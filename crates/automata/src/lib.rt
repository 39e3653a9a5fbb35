// The limits of an automaton, and its check over an alphabet.
#![tactic(auto)]

pub mod check;
pub mod limits;
