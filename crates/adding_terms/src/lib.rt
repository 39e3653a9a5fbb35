// A transition added to an automaton: what becomes of the relations of a form, and its laws (document 02, R-8).
#![tactic(auto)]
