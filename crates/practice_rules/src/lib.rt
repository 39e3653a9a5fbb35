// The rules of a practice sheet, as the draws choose them.
#![tactic(auto)]

pub mod generator;
pub mod rules;
