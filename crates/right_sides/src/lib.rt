// The right sides of a grammar's rules, from which the rules of its form are made.
#![tactic(auto)]

pub mod rules;
mod side;
