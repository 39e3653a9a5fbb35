// The states of a call from the table of its rule, in the lanes of its arguments' relations.
#![tactic(auto)]

pub mod call;
