// The entries of a table's rules that depend on a terminal, worked out again.
#![tactic(auto)]

pub mod dependence;
pub mod redo;
