// The symbols of the rules of a table, written out.
#![tactic(auto)]

pub mod write;
