// The links of an automaton's transitions, along which a node is taken through those of its own terminal alone.
#![tactic(auto)]

pub mod links;
