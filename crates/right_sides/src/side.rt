// The right side of a rule, its nodes from the last to the first, with a stack of cells.
ghost use Rattle.nodes.specs.Nodes.{naming};
ghost use Rattle.right_sides.specs.Side.{NodeReady, NodeMade, RightSide, SideMade};

use cells::builder::FormBuilder;
use cells::cells::CellNumber;
use checks::limits::{MOST_NODES, MOST_RULES};
use contraction::contract_terminal::contract_terminal;
use contraction::substitute::substitute;
use nodes::name::{Name, name_of, name_rank};

// A node over cells. A parameter's cell has its number.
fn node(
    builder: &mut FormBuilder,
    roots: &[CellNumber; MOST_RULES],
    name: Name,
    children: &[CellNumber],
) -> CellNumber
    requires { NodeReady builder.old roots.now children.now (naming name) }
    ensures { NodeMade builder.old roots.now children.now (naming name) builder.new result }
{
    match name {
        Name::Terminal(f) => contract_terminal(builder, f, children),
        Name::Nonterminal(r) => substitute(builder, children, roots[r.0 as usize]),
        Name::Parameter(j) => j as CellNumber,
        Name::Nothing => 0,
    }
}

// The nodes of a right side. The stack lies at the end of its array, from `low` on.
pub fn right_side(
    builder: &mut FormBuilder,
    alphabet: &[u8],
    ranks: &[u8; MOST_RULES],
    roots: &[CellNumber; MOST_RULES],
    nodes: &[u8],
) -> CellNumber
    requires { RightSide builder.old alphabet.now ranks.now roots.now nodes.now }
    ensures { SideMade builder.old alphabet.now ranks.now roots.now nodes.now builder.new result }
{
    let mut stack = [0; MOST_NODES];
    let mut low = MOST_NODES;
    for i in (0..nodes.len()).rev() {
        let name = name_of(nodes[i]);
        let behind = low + name_rank(alphabet, ranks, name) as usize;
        let children = &stack[low..behind];
        let made = node(builder, roots, name, children);
        low = behind - 1;
        stack[low] = made;
    }
    stack[low]
}
