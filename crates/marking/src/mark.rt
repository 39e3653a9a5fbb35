// Marking a sheet: it is read once, its form is made and evaluated.
ghost use Rattle.std.specs.Prelude.{◌≡◌, ◌≤◌, length};
ghost use Rattle.terms.specs.Sheet.{finals};
ghost use Rattle.terms.specs.Answer.{answer};
ghost use Rattle.terms.specs.Calls.{sheet_marking_refusal, sheet_mark};
ghost use Rattle.terms.specs.FormBytes.{form_length};
ghost use Rattle.marking.specs.Marking.{verdict_of, said_of_mark, answer_of_mark, SlicesLeft};
ghost use Rattle.marking.specs.Private.Verdict.{verdict_on};

use crate::answer::{Mark, Verdict};
use evaluation::evaluate::evaluate_checked;
use form_bytes::layout::form_length;
use making::make_read;
use sheets::sheet::{Sheet, read_sheet};
use terms::refusals::Refusal;

// The verdict of a mask: accepted where it shares a state with the final states.
fn verdict(automaton: &[u8], mask: u8) -> Verdict
    requires { 2 ≤ length automaton.now }
    ensures { verdict_of result ≡ verdict_on mask (finals automaton.now) }
{
    if mask & automaton[1] == 0 {
        return Verdict::Declined;
    }
    Verdict::Accepted
}

// Marks a sheet that was read, into slices with room for its form and its relations.
fn mark_read(sheet: &Sheet<'_>, form: &mut [u8], relations: &mut [u64]) -> Mark
    requires { (form_length (length sheet.now.alphabet.now) sheet.now.asked ≤ length form.old) × (sheet.now.asked ≤ length relations.old) }
    ensures result_value { said_of_mark result ≡ sheet_mark sheet.now.bytes.now }
    ensures slices_left { SlicesLeft 0 sheet.now.bytes.now form.new form.old relations.new relations.old }
{
    let n = make_read(sheet, form);
    let mask = evaluate_checked(sheet.alphabet, sheet.automaton, &form[..n], relations);
    let verdict = verdict(sheet.automaton, mask);
    Mark { verdict, mask }
}

// Marks a sheet without a tally: refused by 1 to 16 for the sheet, 17 for the form's slice, 19 for the slice of numbers. The slices end as form making and
// evaluation leave them.
#[tactic(auto, using(terms::proofs::InTurn::in_turn, crate::proofs::Marked::refused_slices, crate::proofs::Marked::marked_slices), unfolding(terms::specs::Calls::sheet_marking_refusal, terms::specs::Calls::making_refusal))]
pub fn mark_sheet(sheet: &[u8], form: &mut [u8], relations: &mut [u64]) -> Result<Mark, Refusal>
    ensures result_value { answer_of_mark result ≡ answer (sheet_marking_refusal sheet.now (length form.old) (length relations.old)) (sheet_mark sheet.now) }
    ensures slices_left { SlicesLeft (sheet_marking_refusal sheet.now (length form.old) (length relations.old)) sheet.now form.new form.old relations.new relations.old }
{
    let read = read_sheet(sheet)?;
    if form.len() < form_length(read.alphabet.len(), read.asked) {
        return Err(Refusal::FormShort);
    }
    if relations.len() < read.asked {
        return Err(Refusal::WorkShort);
    }
    Ok(mark_read(&read, form, relations))
}
