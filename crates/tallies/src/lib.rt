// The tally of sixteen candidates, and its steps.
#![tactic(auto)]

pub mod tally;
