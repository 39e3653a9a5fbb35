// The terminal at a preorder position of the tree that a form derives, without unfolding it.
ghost use Rattle.std.specs.Prelude.{◌≡◌, ◌*◌, ◌≤◌, length};
ghost use Rattle.terms.specs.FormBytes.{table_count, table_rules};
ghost use Rattle.terms.specs.Answer.{answer};
ghost use Rattle.terms.specs.Calls.{counts_per_rule, rules_counts, label_refusal, label_at, counts_of, lent_after};
ghost use Rattle.places.specs.Position.{Position, symbol_at, position_refusal};
ghost use Rattle.labelling.specs.Label.{answer_of_label};

use counting::counts::{COUNTS, FEW_COUNTS, FEW_RULES, MOST_COUNTS, count_nodes};
use counting::table::CountedRules;
use forms::table::CheckedForm;
use places::place::{Found, Place, follow};
use sizing::size::check_size;
use terms::refusals::Refusal;
use terms::{Rule, Terminal};

// The terminal at a position of a rule.
fn label_in(counted: &CountedRules<'_>, rule: Rule, position: u64) -> Terminal
    requires { Position counted.now.table.alphabet.now counted.now.table.bytes.now rule.0 position }
    ensures { result.0 ≡ symbol_at counted.now.table.alphabet.now counted.now.table.bytes.now rule.0 position }
{
    let mut at = Place { rule, position };
    loop {
        match follow(counted, at) {
            Found::At(terminal) => return terminal,
            Found::In(lower) => at = lower,
        }
    }
}

// The terminal at a position of what the start of a form derives. The counts are worked out in `N` numbers of its own. A position past the end is refused when the
// counts are known, so these go to the slice that is lent only then: a refusal leaves it as it was.
fn label_with<const N: usize>(
    opened: &CheckedForm<'_>,
    position: u64,
    counts: &mut [u64],
) -> Result<Terminal, Refusal>
    requires { (counts_per_rule * table_count opened.now.table.bytes.now ≤ N) × (N ≤ 4096) × (counts_per_rule * table_count opened.now.table.bytes.now ≤ length counts.old) }
    ensures result_value { let table = opened.now.table in answer_of_label result ≡ answer (position_refusal table.alphabet.now table.bytes.now opened.now.start.0 position) (symbol_at table.alphabet.now table.bytes.now opened.now.start.0 position) }
    ensures counts_after { let table = opened.now.table in counts.new ≡ lent_after (position_refusal table.alphabet.now table.bytes.now opened.now.start.0 position) (rules_counts (table_rules table.alphabet.now table.bytes.now)) counts.old }
{
    let mut known = [0u64; N];
    count_nodes(&opened.table, &mut known);
    let counted = CountedRules {
        table: opened.table,
        counts: &known,
    };
    if counted.own_of(opened.start) <= position {
        return Err(Refusal::NoPlace);
    }
    let filled = COUNTS * opened.table.count();
    counts[..filled].copy_from_slice(&known[..filled]);
    Ok(label_in(&counted, opened.start, position))
}

// The terminal at a position, the root being 0.
#[tactic(auto, using(terms::proofs::InTurn::in_turn), unfolding(terms::specs::Calls::label_refusal))]
pub fn label(
    alphabet: &[u8],
    form: &[u8],
    position: u64,
    counts: &mut [u64],
) -> Result<Terminal, Refusal>
    ensures result_value { answer_of_label result ≡ answer (label_refusal alphabet.now form.now position (length counts.old)) (label_at alphabet.now form.now position) }
    ensures counts_after { counts.new ≡ lent_after (label_refusal alphabet.now form.now position (length counts.old)) (counts_of alphabet.now form.now) counts.old }
{
    let opened = check_size(alphabet, form, counts.len())?;
    if opened.table.count() <= FEW_RULES {
        return label_with::<{ FEW_COUNTS }>(&opened, position, counts);
    }
    label_with::<{ MOST_COUNTS }>(&opened, position, counts)
}
