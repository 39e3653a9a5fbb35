// Cleaning a grammar: what it means, and its laws (document 02, R-3).
#![tactic(auto)]
