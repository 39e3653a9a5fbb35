// The step of a node through the transitions of its terminal, in the eight lanes of its children's relations at once.
#![tactic(auto)]

pub mod step;
