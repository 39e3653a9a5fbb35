// How many rules of a form a node may take.
ghost use Rattle.std.specs.Prelude.{◌≡◌, ◌<◌};
ghost use Rattle.terms.specs.Form.{share};
ghost use Rattle.nodes.specs.Nodes.{naming};

use crate::name::Name;

// The share of a node that names something of a rank: 2 for a terminal, 4 n - 3 for a call of a rule of rank n above 0, else none. A rank is a byte, so that
// a share is below 1,024, and a sum of shares cannot overflow.
pub fn share(name: Name, rank: u8) -> usize
    ensures share { result ≡ share (λ _. rank) (naming name) }
    ensures small { result < 1024 }
{
    match name {
        Name::Terminal(_) => 2,
        Name::Nonterminal(_) => (4 * rank as usize).saturating_sub(3),
        Name::Parameter(_) | Name::Nothing => 0,
    }
}
