// A form in the making.
ghost use Rattle.std.specs.Prelude.{◌≤◌};
ghost use Rattle.cells.specs.Cells.{most_cells};

use crate::cells::{Cell, CellNumber, MOST_CELLS};
use terms::Rule;

// The table of the form's rules, the cells, and the numbers of the next rule and the next cell. Rules and cells are only ever added.
#[derive(Drop)]
pub struct FormBuilder<'a> {
    pub table: &'a mut [u8],
    pub cells: [Cell; MOST_CELLS],
    pub next_rule: Rule,
    pub next_cell: CellNumber,
    ghost in_range: { next_cell ≤ most_cells },
}
