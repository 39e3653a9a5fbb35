// The bytes of a one-hole form: its parts, and a rule of its table.
#![tactic(auto)]

pub mod layout;
pub mod rule;
