// The nodes of a right side: what a node names, how many whole trees nodes make, how often each parameter occurs, and how many rules of a form a node may take.
#![tactic(auto)]

pub mod name;
pub mod parameters;
pub mod share;
pub mod wholes;
