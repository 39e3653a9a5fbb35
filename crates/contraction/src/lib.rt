// The steps of form making on cells (source document 000, section 6).
#![tactic(auto)]

pub mod contract_chain;
pub mod contract_terminal;
pub mod substitute;
