// The check of one rule in the table of a form against an alphabet, for any bytes.
#![tactic(auto)]

ghost use Rattle.std.specs.Prelude.{◌≡◌, ◌+◌, ◌*◌, ◌≤◌, length};
ghost use Rattle.terms.specs.Grammar.{terminal_rank};
ghost use Rattle.terms.specs.FormBytes.{rule_length, chain_fits, kind_fits, rule_fits};

use checks::alphabet;
use form_bytes::rule::{NO_TERMINAL, fourth_of, hole_of, kind_of, terminal_of};
use slot_checks::{slot_calls, slot_unused, slots_fit};
use terms::{Rule, Terminal};

// Kind 0, f(A1..An): f is a terminal, and no child is open.
fn whole_fits(alphabet: &[u8], table: &[u8], rule: Rule, terminal: Terminal, hole: u8) -> bool
    requires { rule_length * rule.0 + rule_length ≤ length table.now }
    ensures { let a = alphabet.now in result ≡ kind_fits table.now rule.0 0 (length a) terminal.0 (terminal_rank a terminal.0) hole }
{
    (terminal.0 as usize) < alphabet.len()
        && hole == 0
        && slots_fit(table, rule, alphabet::rank_of(alphabet, terminal), hole)
}

// Kind 1, f(A1..y..An): f is a terminal, and the open child is one of its children.
fn pierced_fits(alphabet: &[u8], table: &[u8], rule: Rule, terminal: Terminal, hole: u8) -> bool
    requires { rule_length * rule.0 + rule_length ≤ length table.now }
    ensures { let a = alphabet.now in result ≡ kind_fits table.now rule.0 1 (length a) terminal.0 (terminal_rank a terminal.0) hole }
{
    let rank = alphabet::rank_of(alphabet, terminal);
    (terminal.0 as usize) < alphabet.len()
        && 1 <= hole
        && hole <= rank
        && slots_fit(table, rule, rank, hole)
}

// Kinds 2 and 3, B(C) and B(C(y)): no terminal, no hole, B of rank 1, C of the rank `rank`, and the other slots unused.
fn chain_fits(table: &[u8], rule: Rule, terminal: Terminal, hole: u8, rank: u8) -> bool
    requires { rule_length * rule.0 + rule_length ≤ length table.now }
    ensures { result ≡ chain_fits table.now rule.0 terminal.0 hole rank }
{
    terminal == NO_TERMINAL
        && hole == 0
        && slot_calls(table, rule, 1, 0)
        && slot_calls(table, rule, rank, 1)
        && slot_unused(table, rule, 2)
        && slot_unused(table, rule, 3)
}

// `rule` fits its kind, and its fourth byte is 00.
pub fn rule_fits(alphabet: &[u8], table: &[u8], rule: Rule) -> bool
    requires { rule_length * rule.0 + rule_length ≤ length table.now }
    ensures { result ≡ rule_fits alphabet.now table.now rule.0 }
{
    if fourth_of(table, rule) != 0 {
        return false;
    }
    let kind = kind_of(table, rule);
    let terminal = terminal_of(table, rule);
    let hole = hole_of(table, rule);
    match kind {
        0 => whole_fits(alphabet, table, rule, terminal, hole),
        1 => pierced_fits(alphabet, table, rule, terminal, hole),
        2 => chain_fits(table, rule, terminal, hole, 0),
        3 => chain_fits(table, rule, terminal, hole, 1),
        _ => false,
    }
}
