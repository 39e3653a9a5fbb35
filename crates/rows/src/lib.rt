// Rows of calls on standard input, and the printing of what comes out of a call.
#![tactic(auto)]

pub mod input;
pub mod lend;
pub mod names;
pub mod row;
pub mod show;
