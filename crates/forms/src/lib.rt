// The check of a one-hole form, and the table of the rules of a form that passes it.
#![tactic(auto)]

pub mod check;
pub mod head;
pub mod opened;
pub mod table;
