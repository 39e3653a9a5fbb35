// Marking for a candidate, whose tally counts the answers.
#![tactic(auto)]

pub mod answer;
pub mod mark;
