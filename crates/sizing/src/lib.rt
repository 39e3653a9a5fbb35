// The size of the tree that a form derives.
#![tactic(auto)]

pub mod answer;
pub mod size;
