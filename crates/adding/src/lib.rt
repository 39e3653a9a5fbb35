// A transition added to an automaton, and the relations of a form carried over to the longer one (document 02, R-8).
#![tactic(auto)]

pub mod add;
mod refusal;
