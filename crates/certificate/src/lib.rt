// Demand 3: the calls in turn, with one contract over all of them.
#![tactic(auto)]

pub mod certify;
