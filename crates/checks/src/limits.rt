// The limits of a sheet.

// How many bytes the table of contents has.
pub const CONTENTS: usize = 12;

// The most terminals of an alphabet.
pub const MOST_TERMINALS: usize = 32;

// The most rules.
pub const MOST_RULES: usize = 64;

// The most right-side nodes.
pub const MOST_NODES: usize = 128;

// The highest rank of a terminal or a rule.
pub const HIGHEST_RANK: u8 = 4;
