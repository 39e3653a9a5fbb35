// Cleaning the rules of a sheet before a form is made of them: dropped arguments and calls of lone parameters go, and no node is added.
#![tactic(auto)]

pub mod clean;
pub mod notes;
mod sift;
