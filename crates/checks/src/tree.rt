// A tree in preorder: the terminal of each node, a byte each, before those of its children.
ghost use Rattle.std.specs.Prelude.{◌≡◌};
ghost use Rattle.terms.specs.Answer.{refusal_of};
ghost use Rattle.terms.specs.Check.{is_tree, tree_refusal};

use crate::alphabet;
use terms::Terminal;
use terms::refusals::Refusal;

// The bytes are terminals of the alphabet and one whole tree. From the last node to the first, a node takes
// as many of the trees behind it as its rank, and makes one.
fn is_tree(alphabet: &[u8], tree: &[u8]) -> bool
    ensures { result ≡ is_tree alphabet.now tree.now }
{
    let mut trees: usize = 0;
    for i in (0..tree.len()).rev() {
        let terminal = Terminal(tree[i]);
        if alphabet.len() <= terminal.0 as usize {
            return false;
        }
        let rank = alphabet::rank_of(alphabet, terminal) as usize;
        if trees < rank {
            return false;
        }
        trees = trees - rank + 1;
    }
    trees == 1
}

// What is refused of a tree of at most `most` nodes: 22 for its length, 23 for its nodes.
pub fn check_tree(most: usize, alphabet: &[u8], tree: &[u8]) -> Result<(), Refusal>
    ensures { refusal_of result ≡ tree_refusal most alphabet.now tree.now }
{
    if most < tree.len() {
        return Err(Refusal::TreeLong);
    }
    if !is_tree(alphabet, tree) {
        return Err(Refusal::Tree);
    }
    Ok(())
}
