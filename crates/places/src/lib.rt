// Positions of what the rules of a table derive.
#![tactic(auto)]

pub mod place;
