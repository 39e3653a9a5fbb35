// The own symbols of a table's rules, written out in preorder.
ghost use Rattle.std.specs.Prelude.{◌≡◌, ◌+◌, ◌<◌, length};
ghost use Rattle.std.proofs.lemmas.List.Edits.{sets};
ghost use Rattle.writing.specs.Writing.{symbols_in, rule_written, RuleRoom, SlotsRoom};

use counting::table::CountedRules;
use form_bytes::rule::Kind;
use terms::Rule;

// What every level only reads is handed on as one reference, one word.

// Writes the trees of the slots `from` up to `to` of a rule, one behind the other, and answers where they end.
#[cycle(write_part_write_rule_write_slots)]
fn write_slots(
    counted: &CountedRules<'_>,
    rule: Rule,
    from: usize,
    to: usize,
    tree: &mut [u8],
    at: usize,
) -> usize
    requires { SlotsRoom counted.now.table.alphabet.now counted.now.table.bytes.now rule.0 from to at (length tree.old) }
    ensures end { result ≡ at + length (symbols_in counted.now.table.alphabet.now counted.now.table.bytes.now rule.0 from to) }
    ensures written { tree.new ≡ sets tree.old at (symbols_in counted.now.table.alphabet.now counted.now.table.bytes.now rule.0 from to) }
{
    let mut end = at;
    for j in from..to {
        let slot = counted.table.slot_of(rule, j);
        write_part(counted, slot, tree, end, 0);
        end += counted.own_of(slot) as usize;
    }
    end
}

// Writes a rule's own symbols as `write_rule` does. A single node is written here, which is quicker than a call for it.
#[cycle(write_part_write_rule_write_slots)]
fn write_part(counted: &CountedRules<'_>, rule: Rule, tree: &mut [u8], at: usize, gap: usize)
    requires { RuleRoom counted.now.table.alphabet.now counted.now.table.bytes.now rule.0 at gap (length tree.old) }
    ensures { tree.new ≡ rule_written counted.now.table.alphabet.now counted.now.table.bytes.now rule.0 tree.old at gap }
{
    if counted.own_of(rule) == 1 {
        tree[at] = counted.table.terminal_of(rule).0;
        return;
    }
    write_rule(counted, rule, tree, at, gap);
}

// Writes a rule's own symbols from place `at` on, and keeps `gap` bytes where its open place is. Its parts are lower rules. A call writes a node, so there
// are no more calls than nodes.
#[cycle(write_part_write_rule_write_slots)]
fn write_rule(counted: &CountedRules<'_>, rule: Rule, tree: &mut [u8], at: usize, gap: usize)
    requires { RuleRoom counted.now.table.alphabet.now counted.now.table.bytes.now rule.0 at gap (length tree.old) }
    ensures { tree.new ≡ rule_written counted.now.table.alphabet.now counted.now.table.bytes.now rule.0 tree.old at gap }
{
    let mut lower = rule;
    let mut place = at;
    // B(C) and B(C(y)): B with room for C and the gap, then C in that room.
    while counted.table.kind_of(lower).is_chain() {
        let root = counted.table.slot_of(lower, 0);
        let inner = counted.table.slot_of(lower, 1);
        let room = counted.own_of(inner) as usize + gap;
        write_part(counted, root, tree, place, room);
        place += counted.before_of(root) as usize;
        lower = inner;
    }
    // f(A1..An): f, then the slots before the open place and those after it.
    let terminal = counted.table.terminal_of(lower);
    let rank = counted.table.rank_of(lower);
    tree[place] = terminal.0;
    if counted.table.kind_of(lower) == Kind::Whole {
        write_slots(counted, lower, 0, rank, tree, place + 1);
        return;
    }
    let hole = counted.table.hole_of(lower) as usize;
    let end = write_slots(counted, lower, 0, hole - 1, tree, place + 1);
    write_slots(counted, lower, hole, rank, tree, end + gap);
}

// Writes the tree of a rule of rank 0 at the beginning of the slice.
pub fn write_tree(counted: &CountedRules<'_>, rule: Rule, tree: &mut [u8])
    requires { RuleRoom counted.now.table.alphabet.now counted.now.table.bytes.now rule.0 0 0 (length tree.old) }
    ensures { tree.new ≡ rule_written counted.now.table.alphabet.now counted.now.table.bytes.now rule.0 tree.old 0 0 }
{
    write_rule(counted, rule, tree, 0, 0);
}
