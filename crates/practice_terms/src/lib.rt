// Practice sheets by number: their meaning and its laws (document 02, R-2).
#![tactic(auto)]
