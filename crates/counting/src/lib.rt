// The counts of the nodes that the rules of a form derive.
#![tactic(auto)]

pub mod counts;
pub mod table;
