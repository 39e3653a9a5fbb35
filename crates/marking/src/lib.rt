// Marking a sheet: reading it, making its form and evaluating that.
#![tactic(auto)]

pub mod answer;
pub mod mark;
