// Writing a one-hole form: the rules of its table, and its head.
#![tactic(auto)]

pub mod write;
