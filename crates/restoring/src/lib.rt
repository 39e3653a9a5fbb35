// A sheet that was written, made a form and unfolded: its tree comes back.
#![tactic(auto)]

pub mod practice;
pub mod restore;
pub mod written;
