// The parameters of a rule: whether it leaves out any or is a lone one, which are present, and their new numbers once a rule is cleaned.
#![tactic(auto)]

pub mod numbers;
pub mod strict;
