// Cells, each of which represents a skeleton: what is left of a right side when everything without a parameter is a rule of the form.
ghost use Rattle.std.specs.Prelude.{◌≡◌};
ghost use Rattle.cells.specs.Cells.{is_closed, slot_for};

use checks::limits::{HIGHEST_RANK, MOST_NODES};
use form_bytes::rule::UNUSED_SLOT;
use terms::{Rule, Terminal};

// The most cells: one for each parameter, and 1 + 3 n for each node of rank n, of which a tree of k nodes has fewer than 4 k in all.
pub const MOST_CELLS: usize = HIGHEST_RANK as usize + 4 * MOST_NODES;

// The number of a cell among the cells of a builder. There is no heap, so a cell names the cells that it is over by number.
pub type CellNumber = u16;

// What a cell is.
#[derive(Clone, Copy)]
pub enum Cell {
    // a parameter, counted from 0
    Parameter(u8),
    // a rule of rank 0
    Closed(Rule),
    // a rule of rank 1 over a cell
    Over(Rule, CellNumber),
    // a terminal over cells, the first ones, as many as its rank
    Terminal(Terminal, u8, [CellNumber; HIGHEST_RANK as usize]),
}

impl Cell {
    // Whether it is a rule of rank 0.
    pub fn is_closed(self) -> bool
        ensures { result ≡ is_closed self }
    {
        matches!(self, Cell::Closed(_))
    }

    // What stands for it in a slot: its rule, where it is one of rank 0.
    pub fn slot(self) -> Rule
        ensures { result.0 ≡ slot_for self }
    {
        match self {
            Cell::Closed(rule) => rule,
            Cell::Parameter(_) | Cell::Over(_, _) | Cell::Terminal(_, _, _) => UNUSED_SLOT,
        }
    }
}
