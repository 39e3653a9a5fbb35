// The line that is printed for a sheet: verdict, mask and size, or `refused` and the number.
#![tactic(auto)]

pub mod line;
pub mod show;
