// Why a call is refused (documents 01 and 02).
ghost use Rattle.std.specs.Prelude.{◌≡◌};
ghost use Rattle.terms.specs.Answer.{number_of};

use std::error::Error;
use std::fmt;

// Each refusal by its reason, and its number.
#[derive(Clone, Copy, Debug, PartialEq, Eq, Hash)]
pub enum Refusal {
    // a sheet under 12 or over 1,832 bytes
    SheetLength = 1,
    // the table of contents does not join
    Contents = 2,
    // no terminal, or over 32
    TerminalCount = 3,
    // a terminal's rank over 4
    TerminalRank = 4,
    // no rules, or they do not end at a rule's end
    RulesEnd = 5,
    // over 64 rules
    RuleCount = 6,
    // over 128 right-side nodes
    NodeCount = 7,
    // a rule's rank over 4
    RuleRank = 8,
    // a node names nothing
    NodeName = 9,
    // the nodes of a rule are not one whole tree
    RightSide = 10,
    // a parameter occurs a second time
    Parameter = 11,
    // the last rule has parameters
    StartRank = 13,
    // an automaton under 2 bytes, a cut transition, or over 255 of them, one that is to be added included
    AutomatonLength = 14,
    // the states or the final states are out of range
    States = 15,
    // a transition names something that does not exist
    Transition = 16,
    // the slice for the form is too short
    FormShort = 17,
    // the bytes are no form that is valid for the alphabet in its head
    Form = 18,
    // a slice to work in is too short
    WorkShort = 19,
    // the slice for the tree is too short
    TreeShort = 20,
    // the position is not below the size, or the rule's number not below the number of rules
    NoPlace = 21,
    // a tree is too long
    TreeLong = 22,
    // the bytes are not one tree over the alphabet
    Tree = 23,
    // the slice for the sheet is too short
    SheetShort = 24,
    // some count of the candidate is 4,294,967,295
    TallyFull = 25,
    // the number of a candidate is over 15
    Candidate = 26,
    // no rule of a practice sheet is to be drawn, or over 20
    DrawnRules = 27,
    // the alphabet given is not the one in the form's head
    OtherAlphabet = 28,
    // a transition that is to be added is not 6 bytes, or names something that does not exist
    NewTransition = 29,
}

impl Refusal {
    // The number that programs print and C is answered.
    pub fn number(self) -> u8
        ensures { result ≡ number_of self }
    {
        self as u8
    }
}

impl From<Refusal> for u8 {
    ghost from_gives = { λ refusal n. n ≡ number_of refusal };

    fn from(refusal: Refusal) -> u8 {
        refusal.number()
    }
}

impl fmt::Display for Refusal {
    fn fmt<W: fmt::Write>(&self, f: &mut fmt::Formatter<W>) -> fmt::Result {
        write!(f, "refused {}", self.number())
    }
}

impl Error for Refusal {}
