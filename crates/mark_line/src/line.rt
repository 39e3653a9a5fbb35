// What is said of a sheet: a refusal, or verdict, mask and size.
ghost use Rattle.std.specs.Prelude.{◌≡◌};
ghost use Rattle.terms.specs.Sheet.{sheet_tree};
ghost use Rattle.terms.specs.Count.{size_of, capped};
ghost use Rattle.mark_line.specs.Private.MarkedForm.{MarkedForm};
ghost use Rattle.sizing.specs.Size.{number_of_size};
ghost use Rattle.mark_line.specs.Line.{answer_of_line, line_of};

use checks::bytes::word;
use checks::limits::{CONTENTS, MOST_TERMINALS};
use counting::counts::COUNTS;
use form_bytes::layout;
use marking::answer::Mark;
use marking::mark::mark_sheet;
use sheets::limits::MOST_ASKED;
use sizing::answer::Size;
use sizing::size::size;
use terms::refusals::Refusal;

// The length of a form of the most terminals of a sheet and the most rules that a form of it may take.
const LONGEST_FORM: usize = layout::RANKS_OFFSET + MOST_TERMINALS + layout::RULE * MOST_ASKED;

// Verdict, mask and size.
#[derive(Clone, Copy, Debug, PartialEq, Eq)]
pub struct Line {
    pub mark: Mark,
    pub size: Size,
}

// The size of the sheet's tree, by the form at the beginning of a slice. The call is not refused: the form was made for the sheet's alphabet.
fn size_of(sheet: &[u8], form: &[u8]) -> Size
    requires { MarkedForm sheet.now form.now }
    ensures { number_of_size result ≡ capped (size_of (sheet_tree sheet.now)) }
{
    let rules = word(sheet, 4);
    let end = layout::form_length(layout::terminal_count(form), layout::rule_count(form));
    let mut counts = [0u64; COUNTS * MOST_ASKED];
    match size(&sheet[CONTENTS..rules], &form[..end], &mut counts) {
        Ok(size) => size,
        Err(_) => unreachable!(),
    }
}

// Marks a sheet, with room for the largest one.
pub fn line_of(sheet: &[u8]) -> Result<Line, Refusal>
    ensures { answer_of_line result ≡ line_of sheet.now }
{
    let mut form = [0u8; LONGEST_FORM];
    let mut relations = [0u64; MOST_ASKED];
    let mark = mark_sheet(sheet, &mut form, &mut relations)?;
    let size = size_of(sheet, &form);
    Ok(Line { mark, size })
}
