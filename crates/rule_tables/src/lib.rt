// The tables of a grammar's rules, from the first rule to the last.
#![tactic(auto)]

mod bytes;
mod choice;
pub mod rules;
mod table;
