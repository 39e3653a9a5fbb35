// What every call rests on: the limits of document 01, and the checks of an alphabet and of a plain tree.
#![tactic(auto)]

pub mod alphabet;
pub mod bytes;
pub mod limits;
pub mod tree;
