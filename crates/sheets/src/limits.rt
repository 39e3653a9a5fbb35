// The length of a sheet, and how many rules its form may take.
use automata::limits::MOST_TRANSITIONS;
use checks::limits::{CONTENTS, MOST_NODES, MOST_RULES, MOST_TERMINALS};

// The length of the longest sheet: contents, terminals, two bytes for each rule, nodes, and the longest automaton.
pub const LONGEST_SHEET: usize = CONTENTS
    + MOST_TERMINALS
    + 2 * MOST_RULES
    + MOST_NODES
    + (2 + 6 * MOST_TRANSITIONS);

// No sheet asks for more rules of a form: 19 for every 4 nodes.
pub const MOST_ASKED: usize = MOST_NODES / 4 * 19;
