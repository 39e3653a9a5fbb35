// The rules of a sheet: where the rule at a place of a rules body stands, and what is refused of a rule.
#![tactic(auto)]

pub mod cursor;
pub mod rules;
