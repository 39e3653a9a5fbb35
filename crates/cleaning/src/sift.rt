// The nodes of a right side that are kept: those that stand in what the rule derives, without the calls of lone parameters.
ghost use Rattle.std.specs.Prelude.{◌+◌, ◌<◌, ◌≤◌, length};
ghost use Rattle.terms.specs.Check.{most_nodes};
ghost use Rattle.nodes.specs.Nodes.{naming};
ghost use Rattle.cleaning.specs.Sifting.{CanKeep, ChildrenFlagged, Side, Sifted};

use crate::notes::Notes;
use checks::limits::MOST_NODES;
use nodes::name::{Name, name_of, name_rank};

// The flags of a node's children, from `low` on.
fn flag_children(
    flags: &mut [bool; MOST_NODES],
    low: usize,
    notes: &Notes,
    kept: bool,
    name: Name,
    rank: usize,
)
    requires { (low + rank ≤ most_nodes) × ((j : _) → j < rank → CanKeep (naming name) j) }
    ensures { ChildrenFlagged low notes.now.present kept (naming name) rank flags.old flags.new }
{
    for child in 0..rank {
        flags[low + child] = notes.child_kept(kept, name, child);
    }
}

// The nodes that are kept, in their order, and how many they are. For each tree that is still to come a flag says whether it is kept; the flags lie at the
// end of their array, from `low` on, and a node takes the first of them and puts those of its children in its place.
pub fn sift(alphabet: &[u8], notes: &Notes, nodes: &[u8], kept: &mut [u8]) -> usize
    requires { Side alphabet.now notes.now nodes.now (length kept.old) }
    ensures { Sifted alphabet.now notes.now nodes.now kept.old result kept.new }
{
    let mut flags = [true; MOST_NODES];
    let mut low = MOST_NODES - 1;
    let mut count = 0;
    for node in nodes {
        let name = name_of(*node);
        let rank = name_rank(alphabet, &notes.ranks, name) as usize;
        let flag = flags[low];
        low = low + 1 - rank;
        flag_children(&mut flags, low, notes, flag, name, rank);
        if notes.stays(flag, name) {
            kept[count] = *node;
            count += 1;
        }
    }
    count
}
