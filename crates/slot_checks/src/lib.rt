// The checks of the slots of a rule in the table of a form, for any bytes.
#![tactic(auto)]

ghost use Rattle.std.specs.Prelude.{◌≡◌, ◌+◌, ◌*◌, ◌<◌, ◌≤◌, length};
ghost use Rattle.terms.specs.FormBytes.{rule_length, slot_of, calls_lower, unused_slot, slot_fits, slots_fit};

use form_bytes::rule::{UNUSED_SLOT, kind_of, slot_of};
use terms::Rule;

// How many slots a rule has.
const SLOTS: u8 = 4;

// `called` is the number of a rule below `bound` that has the rank `rank`.
pub fn calls_lower(table: &[u8], bound: usize, rank: u8, called: Rule) -> bool
    requires { rule_length * bound ≤ length table.now }
    ensures { result ≡ calls_lower table.now bound rank called.0 }
{
    (called.0 as usize) < bound && kind_of(table, called) % 2 == rank
}

// Slot `j` of `rule` calls a lower rule of the rank `rank`.
pub fn slot_calls(table: &[u8], rule: Rule, rank: u8, j: u8) -> bool
    requires { (rule_length * rule.0 + rule_length ≤ length table.now) × (j < 4) }
    ensures { result ≡ calls_lower table.now rule.0 rank (slot_of table.now rule.0 j) }
{
    calls_lower(
        table,
        rule.0 as usize,
        rank,
        slot_of(table, rule, j as usize),
    )
}

// Slot `j` of `rule` is not used.
pub fn slot_unused(table: &[u8], rule: Rule, j: u8) -> bool
    requires { (rule_length * rule.0 + rule_length ≤ length table.now) × (j < 4) }
    ensures { result ≡ unused_slot (slot_of table.now rule.0 j) }
{
    slot_of(table, rule, j as usize) == UNUSED_SLOT
}

// Slot `j` of f(A1..An), f of the rank `rank`: below the rank and away from the hole it calls a lower rule of rank 0, else it is not used.
fn slot_fits(table: &[u8], rule: Rule, rank: u8, hole: u8, j: u8) -> bool
    requires { (rule_length * rule.0 + rule_length ≤ length table.now) × (j < 4) }
    ensures { result ≡ slot_fits table.now rule.0 rank hole j }
{
    if j < rank && j + 1 != hole {
        return slot_calls(table, rule, 0, j);
    }
    slot_unused(table, rule, j)
}

// The slots of f(A1..An), f of the rank `rank`, all fit.
pub fn slots_fit(table: &[u8], rule: Rule, rank: u8, hole: u8) -> bool
    requires { rule_length * rule.0 + rule_length ≤ length table.now }
    ensures { result ≡ slots_fit table.now rule.0 rank hole }
{
    for j in (0..SLOTS).rev() {
        if !slot_fits(table, rule, rank, hole, j) {
            return false;
        }
    }
    true
}
