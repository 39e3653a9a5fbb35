// The size of the tree that a form derives, without unfolding it.
ghost use Rattle.std.specs.Prelude.{◌≡◌, ◌*◌, ◌≤◌, length, IfOk};
ghost use Rattle.terms.specs.FormBytes.{table_count, form_tree};
ghost use Rattle.terms.specs.Count.{size_of, size_answer};
ghost use Rattle.terms.specs.Answer.{refusal_of, answer};
ghost use Rattle.terms.specs.Calls.{counts_per_rule, size_refusal, counts_of, lent_after};
ghost use Rattle.forms.specs.Private.Opened.{IsOpened};
ghost use Rattle.sizing.specs.Size.{answer_of_size};

use crate::answer::Size;
use counting::counts;
use forms::opened::open_form;
use forms::table::CheckedForm;
use terms::refusals::Refusal;

// Opens a form for a call that lends so many numbers for the counts: what is refused (3, 4, 18, 28 or 19), or the form, for whose counts there is room.
#[tactic(auto, using(terms::proofs::InTurn::in_turn), unfolding(terms::specs::Calls::size_refusal))]
pub fn check_size<'a>(
    alphabet: &'a [u8],
    form: &'a [u8],
    numbers: usize,
) -> Result<CheckedForm<'a>, Refusal>
    ensures refusal { refusal_of result ≡ size_refusal alphabet.now form.now numbers }
    ensures parts { IfOk result (λ opened. IsOpened alphabet.now form.now opened × (counts_per_rule * table_count opened.table.bytes.now ≤ numbers)) }
{
    let opened = open_form(alphabet, form)?;
    if numbers < counts::COUNTS * opened.table.count() {
        return Err(Refusal::WorkShort);
    }
    Ok(opened)
}

// How many nodes the tree has. The counts are left in the front of the slice that is lent.
#[tactic(auto, using(terms::proofs::InTurn::in_turn))]
pub fn size(alphabet: &[u8], form: &[u8], counts: &mut [u64]) -> Result<Size, Refusal>
    ensures result_value { answer_of_size result ≡ answer (size_refusal alphabet.now form.now (length counts.old)) (size_answer (size_of (form_tree alphabet.now form.now))) }
    ensures counts_after { counts.new ≡ lent_after (size_refusal alphabet.now form.now (length counts.old)) (counts_of alphabet.now form.now) counts.old }
{
    let opened = check_size(alphabet, form, counts.len())?;
    counts::count_nodes(&opened.table, counts);
    let nodes = counts::own_of(counts, opened.start);
    if nodes == counts::LARGEST {
        return Ok(Size::Over);
    }
    Ok(Size::Exact(nodes))
}
