// The answers of the calls, printed, the four calls of demand 3 in turn, a form that is opened once, and tallies.
#![tactic(auto)]

pub mod answers;
pub mod certify;
pub mod rules;
pub mod tally;
