// The entries of the rules of a table: sets of states and relations.
#![tactic(auto)]

pub mod entry;
pub mod evaluator;
