// Unfolding: the tree of a form, written out.
#![tactic(auto)]

pub mod unfold;
