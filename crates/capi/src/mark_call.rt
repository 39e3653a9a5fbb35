// Marking for a candidate, with the tally as a slice of 48 counts: those of candidate c at 3 * c, 3 * c + 1 and 3 * c + 2, accepted, declined and turned away.
ghost use Rattle.std.specs.Prelude.{◌≡◌, length};
ghost use Rattle.terms.specs.Sheet.{sheet_mask, sheet_verdict};
ghost use Rattle.marking.specs.Marking.{SlicesLeft, verdict_of};
ghost use Rattle.capi.specs.Result.{result_after};
ghost use Rattle.capi.specs.Mark.{verdict_number, mark_refusal, tally_left};

use counted_marking::mark::mark_among;
use marking::answer::Verdict;
use tallies::tally::COUNTS;
use terms::refusals::Refusal;

// The number of a verdict: 1 accepted, 0 declined.
fn verdict_number(verdict: Verdict) -> u8
    ensures { result ≡ verdict_number (verdict_of verdict) }
{
    match verdict {
        Verdict::Accepted => 1,
        Verdict::Declined => 0,
    }
}

// Marks a sheet for a candidate: the verdict, 1 accepted and 0 declined, and the mask. A tally of fewer than 48 counts is refused by 19, before all else.
#[unsafe(no_mangle)]
pub extern "C" fn ewf_mark(
    sheet: &[u8],
    form: &mut [u8],
    relations: &mut [u64],
    candidate: usize,
    tally: &mut [u32],
    verdict: &mut u8,
    mask: &mut u8,
) -> u8
    ensures refusal { result ≡ mark_refusal tally.old candidate sheet.now (length form.old) (length relations.old) }
    ensures tally { tally.new ≡ tally_left tally.old candidate sheet.now (length form.old) (length relations.old) }
    ensures slices { SlicesLeft (mark_refusal tally.old candidate sheet.now (length form.old) (length relations.old)) sheet.now form.new form.old relations.new relations.old }
    ensures verdict { verdict.new ≡ result_after (mark_refusal tally.old candidate sheet.now (length form.old) (length relations.old)) (verdict_number (sheet_verdict sheet.now)) verdict.old }
    ensures mask { mask.new ≡ result_after (mark_refusal tally.old candidate sheet.now (length form.old) (length relations.old)) (sheet_mask sheet.now) mask.old }
{
    if tally.len() < COUNTS {
        return Refusal::WorkShort.number();
    }
    match mark_among(sheet, form, relations, candidate, tally) {
        Ok(mark) => {
            *verdict = verdict_number(mark.verdict);
            *mask = mark.mask;
            0
        }
        Err(refusal) => refusal.number(),
    }
}
