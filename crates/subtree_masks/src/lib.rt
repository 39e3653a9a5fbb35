// The masks of the subtrees of a checked tree: a node reader and a child-list reader that call each other.
#![tactic(auto)]

pub mod read;
