// A rule in the table of a form: its fields, and all of them as a value.
ghost use Rattle.std.specs.Prelude.{◌≡◌, ◌↔◌, IsTrue, ◌+◌, ◌*◌, ◌<◌, ◌≤◌, length};
ghost use Rattle.terms.specs.FormBytes.{rule_length, rule_byte, slot_of};
ghost use Rattle.form_bytes.specs.Fields.{fields_at, kind_number};

use crate::layout::RULE;
use terms::{Rule, Terminal};

// The kinds of rules: f(A1..An), f(A1..y..An) with an open place, B(C), B(C(y)). Their numbers in a form are 0 to 3.
#[derive(Clone, Copy, Debug, PartialEq, Eq)]
pub enum Kind {
    Whole,
    Pierced,
    Filled,
    Composed,
}

impl Kind {
    // Whether it is B(C) or B(C(y)).
    pub fn is_chain(self) -> bool
        ensures { IsTrue result ↔ (2 ≤ kind_number self) }
    {
        match self {
            Kind::Whole | Kind::Pierced => false,
            Kind::Filled | Kind::Composed => true,
        }
    }
}

impl From<Kind> for u8 {
    ghost from_gives = { λ kind n. n ≡ kind_number kind };

    fn from(kind: Kind) -> u8 {
        kind as u8
    }
}

// What stands for the terminal where a rule has none.
pub const NO_TERMINAL: Terminal = Terminal(0xFF);

// What stands in a slot that is not used.
pub const UNUSED_SLOT: Rule = Rule(0xFFFF);

// What the bytes of a rule say. The kind says which fields are used. It is a number, since the bytes of a form that was not checked may say any.
// Each slot is a field and not an element of an array, since all that reads a rule names each slot by its place.
#[derive(Clone, Copy, Debug, PartialEq, Eq)]
pub struct FormRule {
    pub kind: u8,
    pub terminal: Terminal,
    pub hole: u8,
    pub slot0: Rule,
    pub slot1: Rule,
    pub slot2: Rule,
    pub slot3: Rule,
}

// Byte `k` of a rule, counted from 0.
fn byte_of(table: &[u8], rule: Rule, k: usize) -> u8
    requires { (rule_length * rule.0 + rule_length ≤ length table.now) × (k < rule_length) }
    ensures { result ≡ rule_byte table.now rule.0 k }
{
    table[RULE * rule.0 as usize + k]
}

// The kind.
pub fn kind_of(table: &[u8], rule: Rule) -> u8
    requires { rule_length * rule.0 + rule_length ≤ length table.now }
    ensures { result ≡ rule_byte table.now rule.0 0 }
{
    byte_of(table, rule, 0)
}

// The terminal.
pub fn terminal_of(table: &[u8], rule: Rule) -> Terminal
    requires { rule_length * rule.0 + rule_length ≤ length table.now }
    ensures { result.0 ≡ rule_byte table.now rule.0 1 }
{
    Terminal(byte_of(table, rule, 1))
}

// The hole: the child that the open place stands at, counted from 1.
pub fn hole_of(table: &[u8], rule: Rule) -> u8
    requires { rule_length * rule.0 + rule_length ≤ length table.now }
    ensures { result ≡ rule_byte table.now rule.0 2 }
{
    byte_of(table, rule, 2)
}

// The byte that is always 00.
pub fn fourth_of(table: &[u8], rule: Rule) -> u8
    requires { rule_length * rule.0 + rule_length ≤ length table.now }
    ensures { result ≡ rule_byte table.now rule.0 3 }
{
    byte_of(table, rule, 3)
}

// Slot `j`, counted from 0.
pub fn slot_of(table: &[u8], rule: Rule, j: usize) -> Rule
    requires { (rule_length * rule.0 + rule_length ≤ length table.now) × (j < 4) }
    ensures { result.0 ≡ slot_of table.now rule.0 j }
{
    Rule(checks::bytes::word(table, RULE * rule.0 as usize + (4 + 2 * j)) as u16)
}

// All fields of a rule, which lies inside the table.
pub fn rule_at(table: &[u8], number: Rule) -> FormRule
    requires { rule_length * number.0 + rule_length ≤ length table.now }
    ensures { result ≡ fields_at table.now number.0 }
{
    FormRule {
        kind: kind_of(table, number),
        terminal: terminal_of(table, number),
        hole: hole_of(table, number),
        slot0: slot_of(table, number, 0),
        slot1: slot_of(table, number, 1),
        slot2: slot_of(table, number, 2),
        slot3: slot_of(table, number, 3),
    }
}
