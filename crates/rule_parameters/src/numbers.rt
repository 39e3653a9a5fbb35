// The parameters that a rule keeps, and their new numbers. Each rule has four flags, from its first place on: whether a parameter is present.
ghost use Rattle.std.specs.Prelude.{◌≡◌, map, ◌+◌, ◌<◌, ◌≤◌, length, take, drop};
ghost use Rattle.terms.specs.Grammar.{name};
ghost use Rattle.terms.specs.Check.{highest_rank};
ghost use Rattle.cleaning_terms.specs.Cleaning.{stands, trues, numbered};
ghost use Rattle.rule_parameters.specs.Numbers.{rule_flags, PresentNoted};

use checks::limits::{HIGHEST_RANK, MOST_RULES};
use nodes::name::{FIRST_PARAMETER, Name, name_of};

// How many flags there are.
pub const FLAGS: usize = HIGHEST_RANK as usize * MOST_RULES;

// Whether a parameter stands among the nodes.
fn stands(nodes: &[u8], parameter: u8) -> bool
    requires { parameter < highest_rank }
    ensures { result ≡ stands nodes.now parameter }
{
    nodes.contains(&(FIRST_PARAMETER + parameter))
}

// Notes which parameters of a rule stand among its nodes.
pub fn note_present(nodes: &[u8], rank: u8, first: usize, present: &mut [bool; FLAGS])
    requires { (rank ≤ highest_rank) × (first + highest_rank ≤ rule_flags) }
    ensures { PresentNoted nodes.now rank first present.old present.new }
{
    for parameter in 0..rank {
        present[first + parameter as usize] = stands(nodes, parameter);
    }
}

// How many of a rule's parameters before a number are present: the new number of that parameter, or the new rank where the number is the rank.
pub fn present_before(present: &[bool; FLAGS], first: usize, parameter: u8) -> u8
    requires { (parameter ≤ highest_rank) × (first + highest_rank ≤ rule_flags) }
    ensures { result ≡ trues (take parameter (drop first present.now)) }
{
    let before = &present[first..first + parameter as usize];
    before.iter().filter(|present| **present).count() as u8
}

// The byte of a node, with the new number where it is a parameter.
fn numbered(present: &[bool; FLAGS], first: usize, byte: u8) -> u8
    requires { first + highest_rank ≤ rule_flags }
    ensures { result ≡ numbered (drop first present.now) byte (name byte) }
{
    match name_of(byte) {
        Name::Parameter(j) => FIRST_PARAMETER + present_before(present, first, j),
        Name::Terminal(_) | Name::Nonterminal(_) | Name::Nothing => byte,
    }
}

// Gives the parameters among the nodes their new numbers.
pub fn renumber(nodes: &mut [u8], present: &[bool; FLAGS], first: usize)
    requires { first + highest_rank ≤ rule_flags }
    ensures { nodes.new ≡ map (λ m. numbered (drop first present.now) m (name m)) nodes.old }
{
    for node in nodes.iter_mut() {
        *node = numbered(present, first, *node);
    }
}
