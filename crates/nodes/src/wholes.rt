// How many whole trees symbols in preorder make, counted from the last symbol to the first; none where a symbol lacks children.
ghost use Rattle.std.specs.Prelude.{◌≡◌, ◌<◌};
ghost use Rattle.terms.specs.Tree.{taking};
ghost use Rattle.terms.specs.Check.{is_one};
ghost use Rattle.nodes.specs.Nodes.{counting, trees_in};

// A symbol takes as many of the trees behind it as its rank, and makes one.
#[tactic(auto, unfolding(terms::specs::Tree::taking))]
pub fn taking(rank: u8, behind: Option<usize>) -> Option<usize>
    requires { trees_in behind < 65536 }
    ensures { counting result ≡ taking rank (counting behind) }
{
    let others = behind?.checked_sub(rank as usize)?;
    Some(others + 1)
}

// Whether the symbols make one whole tree.
pub fn is_one(wholes: Option<usize>) -> bool
    ensures { result ≡ is_one (counting wholes) }
{
    wholes == Some(1)
}
