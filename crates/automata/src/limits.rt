// The limits of an automaton.

// The most states.
pub const MOST_STATES: u8 = 8;

// The most transitions.
pub const MOST_TRANSITIONS: usize = 255;
