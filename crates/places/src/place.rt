// A position of what a rule derives, followed into the rules that it names. The open place of a rule is no position.
ghost use Rattle.std.specs.Prelude.{◌≡◌, ◌<◌, ◌≤◌};
ghost use Rattle.terms.specs.FormBytes.{rule_byte, slot_of};
ghost use Rattle.counting.specs.Private.Counts.{own_in, slots_from, Readable};
ghost use Rattle.places.specs.Position.{place_in, Position, Lies, Leads};

use counting::counts;
use counting::table::CountedRules;
use form_bytes::rule::Kind;
use terms::{Rule, Terminal};

// A rule and a position in preorder of its own symbols.
#[derive(Clone, Copy, Debug, PartialEq, Eq)]
pub struct Place {
    pub rule: Rule,
    pub position: u64,
}

// What stands at a place: a terminal of the rule itself, or what stands at a place of a lower rule.
#[derive(Clone, Copy, Debug, PartialEq, Eq)]
pub enum Found {
    At(Terminal),
    In(Place),
}

// Where a position in the slots `from` up to `to` of a rule falls.
fn in_slots(counted: &CountedRules<'_>, rule: Rule, from: usize, to: usize, position: u64) -> Place
    requires { Readable counted.now.table.bytes.now counted.now.counts.now rule.0 from to }
    ensures { (result.rule.0, result.position) ≡ place_in (own_in counted.now.counts.now) (slots_from (slot_of counted.now.table.bytes.now rule.0) from to) position }
{
    let mut left = position;
    for j in from..to {
        let slot = counted.table.slot_of(rule, j);
        let nodes = counts::own_of(counted.counts, slot);
        if left < nodes {
            return Place {
                rule: slot,
                position: left,
            };
        }
        left -= nodes;
    }
    Place {
        rule: Rule(0),
        position: left,
    }
}

// Where a position behind the terminal of f(A1..An) falls.
fn in_whole(counted: &CountedRules<'_>, place: Place) -> Place
    requires { Position counted.now.table.alphabet.now counted.now.table.bytes.now place.rule.0 place.position × (rule_byte counted.now.table.bytes.now place.rule.0 0 ≡ 0) × (0 < place.position) }
    ensures { Lies counted.now.table.alphabet.now counted.now.table.bytes.now place.rule.0 place.position result.rule.0 result.position }
{
    let rank = counted.table.rank_of(place.rule);
    in_slots(counted, place.rule, 0, rank, place.position - 1)
}

// Where a position behind the terminal of f(A1..y..An) falls: before the open place or behind it.
fn in_pierced(counted: &CountedRules<'_>, place: Place) -> Place
    requires { Position counted.now.table.alphabet.now counted.now.table.bytes.now place.rule.0 place.position × (rule_byte counted.now.table.bytes.now place.rule.0 0 ≡ 1) × (0 < place.position) }
    ensures { Lies counted.now.table.alphabet.now counted.now.table.bytes.now place.rule.0 place.position result.rule.0 result.position }
{
    let rule = place.rule;
    let rank = counted.table.rank_of(rule);
    let hole = counted.table.hole_of(rule) as usize;
    let before = counted.before_of(rule);
    if place.position < before {
        return in_slots(counted, rule, 0, hole - 1, place.position - 1);
    }
    in_slots(counted, rule, hole, rank, place.position - before)
}

// Where a position of B(C) or B(C(y)) falls: C stands inside B.
fn in_chain(counted: &CountedRules<'_>, place: Place) -> Place
    requires { Position counted.now.table.alphabet.now counted.now.table.bytes.now place.rule.0 place.position × (2 ≤ rule_byte counted.now.table.bytes.now place.rule.0 0) }
    ensures { Lies counted.now.table.alphabet.now counted.now.table.bytes.now place.rule.0 place.position result.rule.0 result.position }
{
    let outer = counted.table.slot_of(place.rule, 0);
    let inner = counted.table.slot_of(place.rule, 1);
    let before = counted.before_of(outer);
    let own = counted.own_of(inner);
    let position = place.position;
    if position < before {
        return Place {
            rule: outer,
            position,
        };
    }
    if position - before < own {
        return Place {
            rule: inner,
            position: position - before,
        };
    }
    let behind = position - own;
    Place {
        rule: outer,
        position: behind,
    }
}

// One step from a place.
pub fn follow(counted: &CountedRules<'_>, place: Place) -> Found
    requires { Position counted.now.table.alphabet.now counted.now.table.bytes.now place.rule.0 place.position }
    ensures { Leads counted.now.table.alphabet.now counted.now.table.bytes.now place.rule.0 place.position result }
{
    match counted.table.kind_of(place.rule) {
        Kind::Whole | Kind::Pierced if place.position == 0 => {
            Found::At(counted.table.terminal_of(place.rule))
        }
        Kind::Whole => Found::In(in_whole(counted, place)),
        Kind::Pierced => Found::In(in_pierced(counted, place)),
        Kind::Filled | Kind::Composed => Found::In(in_chain(counted, place)),
    }
}
