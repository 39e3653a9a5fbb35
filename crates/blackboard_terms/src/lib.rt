// The blackboard method: what the table of a rule means, and its laws (document 02, R-7).
#![tactic(auto)]
