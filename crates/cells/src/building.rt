// What form making adds to: the rules in the form's table and the cells.
ghost use Rattle.std.specs.Prelude.{◌≡◌, ◌+◌, ◌*◌, ◌<◌, ◌≤◌, length};
ghost use Rattle.terms.specs.FormBytes.{rule_length};
ghost use Rattle.cells.specs.Cells.{most_cells, cell_at, terminal_over};
ghost use Rattle.cells.specs.Builder.{Begun, RuleAdded, CellAdded};

use crate::builder::FormBuilder;
use crate::cells::{Cell, CellNumber, MOST_CELLS};
use checks::limits::HIGHEST_RANK;
use form_bytes::rule::FormRule;
use form_writing::write::write_rule;
use terms::{Rule, Terminal};

impl<'a> FormBuilder<'a> {
    // No rule yet, and the cells of the parameters, which are the first ones.
    pub fn new(table: &'a mut [u8]) -> FormBuilder<'a>
        ensures begun { Begun result }
        ensures table { result.table.now ≡ table.old }
        ensures lent { result.table.ghost_name ≡ table.entry.ghost_name }
    {
        let mut cells = [Cell::Parameter(0); MOST_CELLS];
        for j in 0..HIGHEST_RANK {
            cells[j as usize] = Cell::Parameter(j);
        }
        FormBuilder {
            table,
            cells,
            next_rule: Rule(0),
            next_cell: HIGHEST_RANK as CellNumber,
        }
    }

    // What a cell is.
    pub fn cell(&self, number: CellNumber) -> Cell
        requires { number < most_cells }
        ensures { result ≡ cell_at self.now.cells number }
    {
        self.cells[number as usize]
    }

    // Adds a rule. The answer is its number.
    pub fn add_rule(&mut self, rule: FormRule) -> Rule
        requires fits { rule_length * self.old.next_rule.0 + rule_length ≤ length self.old.table.now }
        requires numbers { self.old.next_rule.0 < 65535 }
        ensures { RuleAdded rule self.old result.0 self.new }
    {
        let number = self.next_rule;
        write_rule(self.table, number, rule);
        self.next_rule = Rule(number.0 + 1);
        number
    }

    // Adds a cell. The answer is its number.
    pub fn add_cell(&mut self, cell: Cell) -> CellNumber
        requires { self.old.next_cell < most_cells }
        ensures { CellAdded cell self.old result self.new }
    {
        let number = self.next_cell;
        self.cells[self.next_cell as usize] = cell;
        self.next_cell += 1;
        number
    }

    // Adds the cell of a terminal over cells, of which the first four are kept.
    pub fn add_terminal(&mut self, terminal: Terminal, children: &[CellNumber]) -> CellNumber
        requires { self.old.next_cell < most_cells }
        ensures { CellAdded (terminal_over terminal children.now) self.old result self.new }
    {
        let rank = children.len().min(HIGHEST_RANK as usize);
        let mut places = [0; HIGHEST_RANK as usize];
        places[..rank].copy_from_slice(&children[..rank]);
        self.add_cell(Cell::Terminal(terminal, rank as u8, places))
    }
}
