// The relations of a form's rules, and the mask of the states that runs end in.
#![tactic(auto)]

pub mod evaluate;
