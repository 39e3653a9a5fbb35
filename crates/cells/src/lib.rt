// Cells, each of which represents a skeleton tree, beside the rules of the form that are made.
#![tactic(auto)]

pub mod builder;
pub mod building;
pub mod cells;
