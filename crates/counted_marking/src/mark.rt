// Marking a sheet for a candidate and counting the answer.
ghost use Rattle.std.specs.Prelude.{◌≡◌, ◌≤◌, length};
ghost use Rattle.terms.specs.Calls.{marking_refusal};
ghost use Rattle.marking.specs.Marking.{answer_of_mark, SlicesLeft};
ghost use Rattle.tallies.specs.Counts.{way, counted};
ghost use Rattle.tallies.specs.Lists.{marking};
ghost use Rattle.counted_marking.specs.Way.{moved_place};

use crate::answer::Marking;
use marking::answer::{Mark, Verdict};
use marking::mark::mark_sheet;
use tallies::tally::{Tally, Way, check_candidate, count_up};
use terms::refusals::Refusal;

// The last of the refusals that turn a sheet away, which are those for the sheet itself.
const LAST_TURNED_AWAY: u8 = 16;

// Which count of its candidate an answer moves on; a refusal other than 1 to 16 moves none.
fn way_of(mark: Result<Mark, Refusal>) -> Option<Way>
    ensures { moved_place result ≡ way (answer_of_mark mark) }
{
    match mark {
        Ok(mark) => match mark.verdict {
            Verdict::Accepted => Some(Way::Accepted),
            Verdict::Declined => Some(Way::Declined),
        },
        Err(refusal) => {
            if LAST_TURNED_AWAY < refusal.number() {
                return None;
            }
            Some(Way::TurnedAway)
        }
    }
}

// Marks a sheet for a candidate and counts the answer among the counts of a tally; later numbers are kept.
pub fn mark_among(
    sheet: &[u8],
    form: &mut [u8],
    relations: &mut [u64],
    candidate: usize,
    counts: &mut [u32],
) -> Result<Mark, Refusal>
    requires { 48 ≤ length counts.old }
    ensures answer { answer_of_mark result ≡ marking counts.old candidate sheet.now (length form.old) (length relations.old) }
    ensures counts { counts.new ≡ counted candidate (answer_of_mark result) counts.old }
    ensures slices { SlicesLeft (marking_refusal counts.old candidate sheet.now (length form.old) (length relations.old)) sheet.now form.new form.old relations.new relations.old }
{
    check_candidate(counts, candidate)?;
    let mark = mark_sheet(sheet, form, relations);
    if let Some(way) = way_of(mark) {
        count_up(counts, candidate, way);
    }
    mark
}

// Marks a sheet for a candidate and counts the answer: refused by 26 where there is no such candidate and by 25 where some count of that candidate cannot move on,
// then by 1 to 16 for the sheet, 17 for the form's slice, 19 for the slice of numbers. The slices end as form making and evaluation leave them.
pub fn mark(
    sheet: &[u8],
    form: &mut [u8],
    relations: &mut [u64],
    candidate: usize,
    tally: Tally,
) -> Marking
    ensures answer { answer_of_mark result.mark ≡ marking tally.counts candidate sheet.now (length form.old) (length relations.old) }
    ensures tally { result.tally.counts ≡ counted candidate (answer_of_mark result.mark) tally.counts }
    ensures slices { SlicesLeft (marking_refusal tally.counts candidate sheet.now (length form.old) (length relations.old)) sheet.now form.new form.old relations.new relations.old }
{
    let mut counts = tally.counts;
    let mark = mark_among(sheet, form, relations, candidate, &mut counts);
    Marking {
        mark,
        tally: Tally { counts },
    }
}
