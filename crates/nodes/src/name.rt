// What a node of a right side names.
ghost use Rattle.std.specs.Prelude.{◌≡◌, length};
ghost use Rattle.terms.specs.Grammar.{name, allowed, name_rank, any_parameter};
ghost use Rattle.nodes.specs.Nodes.{naming, ruled_by, HasRank};

use checks::limits::MOST_RULES;
use terms::{Rule, Terminal};

// Node bytes: terminals, a gap, rules, parameters, and nothing from there on.
const PAST_TERMINALS: u8 = 0x20;

pub const FIRST_RULE: u8 = 0x40;

pub const FIRST_PARAMETER: u8 = 0x80;

const PAST_PARAMETERS: u8 = 0x84;

// As the definition has it, with nothing as a case of its own: an Option of a name would put Some around each pattern of each match.
#[derive(Clone, Copy)]
pub enum Name {
    Terminal(Terminal),
    Nonterminal(Rule),
    // a parameter of the rule, counted from 0
    Parameter(u8),
    Nothing,
}

// What a node byte names.
#[tactic(auto, unfolding(terms::specs::Grammar::name, terms::specs::Grammar::name_of))]
pub fn name_of(byte: u8) -> Name
    ensures { naming result ≡ name byte }
{
    match byte {
        ..PAST_TERMINALS => Name::Terminal(Terminal(byte)),
        FIRST_RULE..FIRST_PARAMETER => Name::Nonterminal(Rule((byte - FIRST_RULE) as u16)),
        FIRST_PARAMETER..PAST_PARAMETERS => Name::Parameter(byte - FIRST_PARAMETER),
        _ => Name::Nothing,
    }
}

// Whether it is a parameter.
pub fn is_parameter(name: Name) -> bool
    ensures { result ≡ any_parameter (naming name) }
{
    matches!(name, Name::Parameter(_))
}

// Whether a node of the right side of a rule may name it: a terminal of the alphabet, a lower rule, a parameter of the rule.
pub fn allowed(alphabet: &[u8], rule: Rule, rank: u8, name: Name) -> bool
    ensures { result ≡ allowed alphabet.now rule.0 rank (naming name) }
{
    match name {
        Name::Terminal(f) => (f.0 as usize) < alphabet.len(),
        Name::Nonterminal(r) => r.0 < rule.0,
        Name::Parameter(j) => j < rank,
        Name::Nothing => false,
    }
}

// The rank of what an allowed node names, from the ranks of the terminals and of the rules.
pub fn name_rank(alphabet: &[u8], ranks: &[u8; MOST_RULES], name: Name) -> u8
    requires { HasRank (length alphabet.now) (naming name) }
    ensures { result ≡ name_rank alphabet.now (ruled_by ranks.now) (naming name) }
{
    match name {
        Name::Terminal(f) => alphabet[f.0 as usize],
        Name::Nonterminal(r) => ranks[r.0 as usize],
        Name::Parameter(_) | Name::Nothing => 0,
    }
}
