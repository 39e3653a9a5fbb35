// A rule of rank 1 over what a cell represents: Contract-1 of source document 000, section 6, where that is a rule too.
ghost use Rattle.std.specs.Prelude.{◌≡◌, ◌∷◌, [], ◌<◌};
ghost use Rattle.form_bytes.specs.Fields.{kind_number};
ghost use Rattle.form_writing.specs.Bytes.{fields_with};
ghost use Rattle.cells.specs.Builder.{Room};
ghost use Rattle.contraction.specs.Chain.{ChainContracted};

use cells::builder::FormBuilder;
use cells::cells::{Cell, CellNumber};
use form_bytes::rule::{FormRule, Kind, NO_TERMINAL, UNUSED_SLOT};
use terms::Rule;

// The rules B(C) and B(C(y)), by their kind.
fn chain(kind: Kind, b: Rule, c: Rule) -> FormRule
    ensures { result ≡ fields_with (kind_number kind) 0xFF 0 (b.0 ∷ c.0 ∷ []) }
{
    FormRule {
        kind: kind.into(),
        terminal: NO_TERMINAL,
        hole: 0,
        slot0: b,
        slot1: c,
        slot2: UNUSED_SLOT,
        slot3: UNUSED_SLOT,
    }
}

// Over a rule of rank 0 it makes a rule of rank 0, over a rule of rank 1 one of rank 1; over anything else it stays as it is.
pub fn contract_chain(builder: &mut FormBuilder, context: Rule, cell: CellNumber) -> CellNumber
    requires room { Room 1 1 builder.old }
    requires lower { cell < builder.old.next_cell }
    ensures { ChainContracted builder.old context.0 cell builder.new result }
{
    match builder.cell(cell) {
        Cell::Closed(rule) => {
            let number = builder.add_rule(chain(Kind::Filled, context, rule));
            builder.add_cell(Cell::Closed(number))
        }
        Cell::Over(rule, child) => {
            let number = builder.add_rule(chain(Kind::Composed, context, rule));
            builder.add_cell(Cell::Over(number, child))
        }
        Cell::Parameter(_) | Cell::Terminal(_, _, _) => builder.add_cell(Cell::Over(context, cell)),
    }
}
