// The substitution of cells for the parameters of what a cell represents (source document 000, section 6, equation (3)).
ghost use Rattle.contraction.specs.Substitution.{Instance, Instanced};

use crate::contract_chain::contract_chain;
use crate::contract_terminal::contract_terminal;
use cells::builder::FormBuilder;
use cells::cells::{Cell, CellNumber};

// The cell with its parameters replaced by the arguments' cells.
pub fn substitute(builder: &mut FormBuilder, args: &[CellNumber], cell: CellNumber) -> CellNumber
    requires { Instance builder.old args.now cell }
    ensures { Instanced builder.old args.now cell builder.new result }
{
    match builder.cell(cell) {
        Cell::Parameter(j) => args[j as usize],
        Cell::Closed(_) => cell,
        Cell::Over(rule, child) => {
            let inner = substitute(builder, args, child);
            contract_chain(builder, rule, inner)
        }
        Cell::Terminal(terminal, rank, children) => {
            let count = rank as usize;
            let mut made = children;
            for j in (0..count).rev() {
                made[j] = substitute(builder, args, made[j]);
            }
            contract_terminal(builder, terminal, &made[..count])
        }
    }
}
