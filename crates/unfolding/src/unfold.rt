// The tree of a form, written out in preorder.
ghost use Rattle.std.specs.Prelude.{◌≡◌, ◌*◌, ◌≤◌, length};
ghost use Rattle.terms.specs.Tree.{preorder};
ghost use Rattle.terms.specs.FormBytes.{table_count, table_rules, form_tree};
ghost use Rattle.terms.specs.Count.{own_nodes, size_of};
ghost use Rattle.terms.specs.Answer.{answer, answer_of};
ghost use Rattle.terms.specs.Calls.{counts_per_rule, rules_counts, unfolding_refusal, counts_of, lent_after};
ghost use Rattle.counting.specs.Private.Symbols.{own_symbols};
ghost use Rattle.writing.specs.Writing.{value_in, room_refusal};

use counting::counts::{COUNTS, FEW_COUNTS, FEW_RULES, MOST_COUNTS, count_nodes};
use counting::table::CountedRules;
use forms::table::CheckedForm;
use sizing::size::check_size;
use terms::refusals::Refusal;
use writing::write::write_tree;

// Unfolds what the start of a form derives. The counts are worked out in `N` numbers of its own. A tree that does not fit is refused when the counts are known, so
// these go to the slice that is lent only then: a refusal leaves it as it was.
fn unfold_with<const N: usize>(
    opened: &CheckedForm<'_>,
    counts: &mut [u64],
    tree: &mut [u8],
) -> Result<usize, Refusal>
    requires { (counts_per_rule * table_count opened.now.table.bytes.now ≤ N) × (N ≤ 4096) × (counts_per_rule * table_count opened.now.table.bytes.now ≤ length counts.old) }
    ensures answer { let table = opened.now.table in answer_of result ≡ answer (room_refusal table.alphabet.now table.bytes.now opened.now.start.0 (length tree.old)) (own_nodes (value_in table.alphabet.now table.bytes.now opened.now.start.0)) }
    ensures tree { let table = opened.now.table in tree.new ≡ lent_after (room_refusal table.alphabet.now table.bytes.now opened.now.start.0 (length tree.old)) (own_symbols (value_in table.alphabet.now table.bytes.now opened.now.start.0)) tree.old }
    ensures counts { let table = opened.now.table in counts.new ≡ lent_after (room_refusal table.alphabet.now table.bytes.now opened.now.start.0 (length tree.old)) (rules_counts (table_rules table.alphabet.now table.bytes.now)) counts.old }
{
    let mut known = [0u64; N];
    count_nodes(&opened.table, &mut known);
    let counted = CountedRules {
        table: opened.table,
        counts: &known,
    };
    let size = counted.own_of(opened.start) as usize;
    if tree.len() < size {
        return Err(Refusal::TreeShort);
    }
    write_tree(&counted, opened.start, tree);
    let filled = COUNTS * opened.table.count();
    counts[..filled].copy_from_slice(&known[..filled]);
    Ok(size)
}

// Writes the form's tree into the tree that is lent, and the counts of its rules into the counts.
#[tactic(auto, using(terms::proofs::InTurn::in_turn), unfolding(terms::specs::Calls::unfolding_refusal))]
pub fn unfold(
    alphabet: &[u8],
    form: &[u8],
    counts: &mut [u64],
    tree: &mut [u8],
) -> Result<usize, Refusal>
    ensures answer { answer_of result ≡ answer (unfolding_refusal alphabet.now form.now (length counts.old) (length tree.old)) (size_of (form_tree alphabet.now form.now)) }
    ensures tree { tree.new ≡ lent_after (unfolding_refusal alphabet.now form.now (length counts.old) (length tree.old)) (preorder (form_tree alphabet.now form.now)) tree.old }
    ensures counts { counts.new ≡ lent_after (unfolding_refusal alphabet.now form.now (length counts.old) (length tree.old)) (counts_of alphabet.now form.now) counts.old }
{
    let opened = check_size(alphabet, form, counts.len())?;
    if opened.table.count() <= FEW_RULES {
        return unfold_with::<{ FEW_COUNTS }>(&opened, counts, tree);
    }
    unfold_with::<{ MOST_COUNTS }>(&opened, counts, tree)
}
