// The bytes of a sheet, as they are written.
#![tactic(auto)]

pub mod write;
