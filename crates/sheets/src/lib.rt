// Reading a sheet, and refusing it by number.
#![tactic(auto)]

pub mod limits;
pub mod sheet;
