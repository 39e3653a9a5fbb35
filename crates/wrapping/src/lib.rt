// Wrapping a plain tree into a sheet.
#![tactic(auto)]

pub mod wrap;
