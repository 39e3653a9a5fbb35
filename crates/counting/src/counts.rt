// How many nodes the rules of a table derive, each count capped at the largest number of 64 bits.
// The counts of a rule stand together: its nodes, then those before its open place.
ghost use Rattle.std.specs.Prelude.{◌≡◌, [], ◌∷◌, ◌++◌, ◌+◌, ◌*◌, ◌-◌, ◌<◌, ◌≤◌, length, take, drop};
ghost use Rattle.terms.specs.Form.{value_at};
ghost use Rattle.terms.specs.FormBytes.{table_count, rule_byte, slot_of, table_rule, table_rules};
ghost use Rattle.terms.specs.Count.{capped};
ghost use Rattle.terms.specs.Calls.{counts_per_rule, value_counts, rules_counts};
ghost use Rattle.counting.specs.Private.Counts.{total, own_in, before_in, HasCounts, counts_below, counts_written, slots_from, CountedRule, Readable};

use form_bytes::rule::Kind;
use forms::head::MOST_RULES;
use forms::table::RuleTable;
use terms::Rule;

// The largest count: it represents every count from it on.
pub const LARGEST: u64 = u64::MAX;

// How many counts a rule has.
pub const COUNTS: usize = 2;

// The most counts of a form.
pub const MOST_COUNTS: usize = COUNTS * MOST_RULES;

// The most rules of a small form. Its counts are worked out in a smaller array, since clearing the large one takes longer than counting.
pub const FEW_RULES: usize = 128;

pub const FEW_COUNTS: usize = COUNTS * FEW_RULES;

// The counts of a rule.
#[derive(Clone, Copy, Debug, PartialEq, Eq)]
struct Counts {
    own: u64,
    before: u64,
}

// The sum of two counts, capped.
fn add_capped(a: u64, b: u64) -> u64
    ensures { result ≡ capped (a + b) }
{
    a.saturating_add(b)
}

// How many nodes a rule derives.
pub fn own_of(counts: &[u64], rule: Rule) -> u64
    requires { HasCounts counts.now rule.0 }
    ensures { result ≡ own_in counts.now rule.0 }
{
    counts[COUNTS * rule.0 as usize]
}

// How many of them stand before its open place.
pub fn before_of(counts: &[u64], rule: Rule) -> u64
    requires { HasCounts counts.now rule.0 }
    ensures { result ≡ before_in counts.now rule.0 }
{
    counts[COUNTS * rule.0 as usize + 1]
}

// Writes the counts of a rule to their places.
fn write_counts(counts: &mut [u64], rule: Rule, found: Counts)
    requires { HasCounts counts.old rule.0 }
    ensures { counts.new ≡ counts_written counts.old rule.0 (found.own ∷ found.before ∷ []) }
{
    let place = COUNTS * rule.0 as usize;
    counts[place] = found.own;
    counts[place + 1] = found.before;
}

// The nodes of the slots `from` up to `to` of a rule, the last slot first.
fn sum_slots(table: &RuleTable<'_>, counts: &[u64], rule: Rule, from: usize, to: usize) -> u64
    requires { Readable table.now.bytes.now counts.now rule.0 from to }
    ensures { result ≡ capped (total (own_in counts.now) (slots_from (slot_of table.now.bytes.now rule.0) from to)) }
{
    let mut sum = 0;
    for j in (from..to).rev() {
        sum = add_capped(own_of(counts, table.slot_of(rule, j)), sum);
    }
    sum
}

// The counts of f(A1..An): its terminal, and its slots.
fn whole_counts(table: &RuleTable<'_>, counts: &[u64], rule: Rule) -> Counts
    requires { (rule.0 < table_count table.now.bytes.now) × (counts_per_rule * rule.0 ≤ length counts.now) × (rule_byte table.now.bytes.now rule.0 0 ≡ 0) }
    ensures { CountedRule counts.now (table_rule table.now.alphabet.now table.now.bytes.now rule.0) result.own result.before }
{
    let own = add_capped(1, sum_slots(table, counts, rule, 0, table.rank_of(rule)));
    Counts { own, before: 0 }
}

// The counts of f(A1..y..An): its terminal and the slots before the open place, and those behind it.
fn pierced_counts(table: &RuleTable<'_>, counts: &[u64], rule: Rule) -> Counts
    requires { (rule.0 < table_count table.now.bytes.now) × (counts_per_rule * rule.0 ≤ length counts.now) × (rule_byte table.now.bytes.now rule.0 0 ≡ 1) }
    ensures { CountedRule counts.now (table_rule table.now.alphabet.now table.now.bytes.now rule.0) result.own result.before }
{
    let rank = table.rank_of(rule);
    let hole = table.hole_of(rule) as usize;
    let before = add_capped(1, sum_slots(table, counts, rule, 0, hole - 1));
    let own = add_capped(before, sum_slots(table, counts, rule, hole, rank));
    Counts { own, before }
}

// The counts of B(C): C has no open place, and so B(C) has none.
fn filled_counts(table: &RuleTable<'_>, counts: &[u64], rule: Rule) -> Counts
    requires { (rule.0 < table_count table.now.bytes.now) × (counts_per_rule * rule.0 ≤ length counts.now) × (rule_byte table.now.bytes.now rule.0 0 ≡ 2) }
    ensures { CountedRule counts.now (table_rule table.now.alphabet.now table.now.bytes.now rule.0) result.own result.before }
{
    let outer = table.slot_of(rule, 0);
    let inner = table.slot_of(rule, 1);
    let own = add_capped(own_of(counts, outer), own_of(counts, inner));
    Counts { own, before: 0 }
}

// The counts of B(C(y)): those of B and C together.
fn composed_counts(table: &RuleTable<'_>, counts: &[u64], rule: Rule) -> Counts
    requires { (rule.0 < table_count table.now.bytes.now) × (counts_per_rule * rule.0 ≤ length counts.now) × (rule_byte table.now.bytes.now rule.0 0 ≡ 3) }
    ensures { CountedRule counts.now (table_rule table.now.alphabet.now table.now.bytes.now rule.0) result.own result.before }
{
    let outer = table.slot_of(rule, 0);
    let inner = table.slot_of(rule, 1);
    let own = add_capped(own_of(counts, outer), own_of(counts, inner));
    let before = add_capped(before_of(counts, outer), before_of(counts, inner));
    Counts { own, before }
}

// The counts of a rule, from those of lower rules.
fn rule_counts(table: &RuleTable<'_>, counts: &[u64], rule: Rule) -> Counts
    requires { (rule.0 < table_count table.now.bytes.now) × (counts_per_rule * rule.0 ≤ length counts.now) }
    ensures { CountedRule counts.now (table_rule table.now.alphabet.now table.now.bytes.now rule.0) result.own result.before }
{
    match table.kind_of(rule) {
        Kind::Whole => whole_counts(table, counts, rule),
        Kind::Pierced => pierced_counts(table, counts, rule),
        Kind::Filled => filled_counts(table, counts, rule),
        Kind::Composed => composed_counts(table, counts, rule),
    }
}

// Writes the counts of a rule behind those of lower rules.
fn count_rule(table: &RuleTable<'_>, counts: &mut [u64], rule: Rule)
    requires { (rule.0 < table_count table.now.bytes.now) × HasCounts counts.old rule.0 × (take (counts_per_rule * rule.0) counts.old ≡ counts_below (table_rules table.now.alphabet.now table.now.bytes.now) rule.0) }
    ensures { counts.new ≡ counts_written counts.old rule.0 (value_counts (value_at (table_rules table.now.alphabet.now table.now.bytes.now) rule.0)) }
{
    let found = rule_counts(table, counts, rule);
    write_counts(counts, rule, found);
}

// Writes the counts of every rule; the numbers behind them stay.
pub fn count_nodes(table: &RuleTable<'_>, counts: &mut [u64])
    requires { counts_per_rule * table_count table.now.bytes.now ≤ length counts.old }
    ensures { counts.new ≡ rules_counts (table_rules table.now.alphabet.now table.now.bytes.now) ++ drop (counts_per_rule * table_count table.now.bytes.now) counts.old }
{
    for number in 0..table.count() as u16 {
        count_rule(table, counts, Rule(number));
    }
}
