// The plain walk over a tree in preorder.
#![tactic(auto)]

pub mod walk;
