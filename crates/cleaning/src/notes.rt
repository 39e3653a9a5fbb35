// What is noted of the rules that are cleaned already.
ghost use Rattle.std.specs.Prelude.{◌≡◌};
ghost use Rattle.nodes.specs.Nodes.{naming};
ghost use Rattle.cleaning.specs.Sifting.{CanKeep, child_kept, node_stays, none_noted};

use checks::limits::{HIGHEST_RANK, MOST_RULES};
use nodes::name::Name;
use rule_parameters::numbers::FLAGS;

// The ranks of the rules as written, four flags for each, which say whether a parameter is present, and whether it is a lone parameter.
#[derive(Clone, Copy, Debug, PartialEq, Eq)]
pub struct Notes {
    pub ranks: [u8; MOST_RULES],
    pub present: [bool; FLAGS],
    pub alone: [bool; MOST_RULES],
}

impl Notes {
    // Nothing is noted yet.
    pub fn none() -> Notes
        ensures { result ≡ none_noted }
    {
        Notes {
            ranks: [0; MOST_RULES],
            present: [false; FLAGS],
            alone: [false; MOST_RULES],
        }
    }

    // Whether child j of a node is kept: all children of a terminal that is kept are, and those arguments of a call whose parameters are present in its rule.
    pub fn child_kept(&self, kept: bool, name: Name, child: usize) -> bool
        requires { CanKeep (naming name) child }
        ensures { result ≡ child_kept self.now.present kept (naming name) child }
    {
        kept && match name {
            Name::Nonterminal(r) => self.present[HIGHEST_RANK as usize * r.0 as usize + child],
            Name::Terminal(_) | Name::Parameter(_) | Name::Nothing => true,
        }
    }

    // Whether a node stays: one that is kept does, but a call of a lone parameter is replaced by its one kept argument.
    pub fn stays(&self, kept: bool, name: Name) -> bool
        requires { CanKeep (naming name) 0 }
        ensures { result ≡ node_stays self.now.alone kept (naming name) }
    {
        kept && match name {
            Name::Nonterminal(r) => !self.alone[r.0 as usize],
            Name::Terminal(_) | Name::Parameter(_) | Name::Nothing => true,
        }
    }
}
