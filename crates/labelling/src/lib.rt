// The terminal at a position of a form's tree.
#![tactic(auto)]

pub mod label;
