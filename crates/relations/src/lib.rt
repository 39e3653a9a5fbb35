// Relations on eight states, a number of 64 bits each: bit 8 * p + q says that p goes to q.
// Each is worked on whole, in lanes read from the table: no branch and no loop's end depends on a bit (document 02, R-4), which `link/pace` tests.
#![tactic(auto)]

ghost use Rattle.std.specs.Prelude.{◌≡◌, ◌&&◌};
ghost use Rattle.terms.specs.Automaton.{has};
ghost use Rattle.terms.specs.Relation.{matrix, related, compose_bits, apply_bits};

mod table;

use crate::table::spread;

// Every state of `from` to every state of `to`: a lane with a 1 for each state of `from`, times `to`, which fits a lane and so carries nothing into the next.
fn pairs(from: u64, to: u64) -> u64
    ensures { result ≡ matrix (λ p q. has from p && has to q) }
{
    spread((from % 256) as u8) * (to % 256)
}

// The relation the other way round: row p goes to column p.
fn transpose(relation: u64) -> u64
    ensures { result ≡ matrix (λ p q. related relation q p) }
{
    let mut columns: u64 = 0;
    for p in 0..8u64 {
        columns = pairs(relation >> (8 * p), 1u64 << p) | columns;
    }
    columns
}

// First `inner`, then `outer`: for each state m, what goes to m in `inner`, to what m goes to in `outer`. Two states may give the same pair, so the pairs of all
// states are joined by *or*: a sum would carry.
pub fn compose(outer: u64, inner: u64) -> u64
    ensures { result ≡ compose_bits outer inner }
{
    let columns = transpose(inner);
    let mut composed: u64 = 0;
    for m in 0..8u64 {
        composed = pairs(columns >> (8 * m), outer >> (8 * m)) | composed;
    }
    composed
}

// The states that `relation` reaches from those of `states`: the rows of those states, joined.
pub fn apply(relation: u64, states: u64) -> u64
    ensures { result ≡ apply_bits relation states }
{
    let rows = relation & pairs(states, 255);
    let joined = rows | (rows >> 8);
    let joined = joined | (joined >> 16);
    (joined | (joined >> 32)) % 256
}
