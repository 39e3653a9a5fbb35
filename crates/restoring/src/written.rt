// The form of a sheet that was written, and that form unfolded.
ghost use Rattle.std.specs.Prelude.{◌≡◌, ◌≤◌, IfOk, length};
ghost use Rattle.restoring.specs.Restore.{MadeBehind, UnfoldedBehind};

use making::make_form;
use terms::refusals::Refusal;
use unfolding::unfold::unfold;

// What the three calls answer.
#[derive(Clone, Copy, Debug, PartialEq, Eq)]
pub struct Restoring<E = Refusal> {
    pub written: Result<usize, E>,
    pub made: Result<usize, E>,
    pub unfolded: Result<usize, E>,
}

// The form of the sheet that was written; a refusal is handed on.
fn make_written<E: From<Refusal>>(
    written: Result<usize, E>,
    sheet: &[u8],
    form: &mut [u8],
) -> Result<usize, E>
    requires { IfOk written (λ bytes. bytes ≤ length sheet.now) }
    ensures { MadeBehind E.from_gives written sheet.now result form.new form.old }
{
    let length = written?;
    Ok(make_form(&sheet[..length], form)?)
}

// The tree of the form that was made; a refusal is handed on.
fn unfold_made<E: From<Refusal>>(
    alphabet: &[u8],
    made: Result<usize, E>,
    form: &[u8],
    counts: &mut [u64],
    tree: &mut [u8],
) -> Result<usize, E>
    requires { IfOk made (λ bytes. bytes ≤ length form.now) }
    ensures { UnfoldedBehind E.from_gives alphabet.now made form.now result counts.new counts.old tree.new tree.old }
{
    let length = made?;
    Ok(unfold(alphabet, &form[..length], counts, tree)?)
}

// Form making and unfolding in turn, behind the call that wrote the sheet.
pub fn unfold_written<E: From<Refusal> + Copy>(
    alphabet: &[u8],
    written: Result<usize, E>,
    sheet: &[u8],
    form: &mut [u8],
    counts: &mut [u64],
    tree: &mut [u8],
) -> Restoring<E>
    requires { IfOk written (λ bytes. bytes ≤ length sheet.now) }
    ensures written_value { result.written ≡ written }
    ensures made_from { MadeBehind E.from_gives result.written sheet.now result.made form.new form.old }
    ensures unfolded_from { UnfoldedBehind E.from_gives alphabet.now result.made form.new result.unfolded counts.new counts.old tree.new tree.old }
{
    let made = make_written(written, sheet, form);
    let unfolded = unfold_made(alphabet, made, form, counts, tree);
    Restoring {
        written,
        made,
        unfolded,
    }
}
