// The calls under C names. Each answers 0 or the refusal's number; results go through references, which a refusal leaves as they were.
#![tactic(auto)]

mod answers;
pub mod form_calls;
pub mod mark_call;
pub mod practice_call;
pub mod rule_calls;
pub mod sheet_calls;
pub mod tree_calls;
