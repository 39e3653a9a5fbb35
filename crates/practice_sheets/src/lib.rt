// Practice sheets by number.
#![tactic(auto)]

pub mod practice;
