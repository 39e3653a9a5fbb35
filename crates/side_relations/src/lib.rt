// The relations that the right side of a rule has between the state of the first parameter and its own, for fixed states of the other parameters.
#![tactic(auto)]

mod parameter;
pub mod side;
