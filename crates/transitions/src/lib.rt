// The step of a node through the transitions of an automaton.
#![tactic(auto)]

pub mod step;
