// A tree wrapped into a sheet, the form of what was written, and that form unfolded: the tree comes back.
ghost use Rattle.std.specs.Prelude.{length};
ghost use Rattle.terms.specs.Sheet.{wrapped};
ghost use Rattle.terms.specs.Calls.{wrap_refusal};
ghost use Rattle.restoring.specs.Restore.{restoring_slices, RestoringCalls, Restored};

use crate::written::{Restoring, unfold_written};
use wrapping::wrap::wrap;

// The three calls in turn.
pub fn restore(
    alphabet: &[u8],
    tree: &[u8],
    automaton: &[u8],
    sheet: &mut [u8],
    form: &mut [u8],
    counts: &mut [u64],
    restored: &mut [u8],
) -> Restoring
    ensures calls { RestoringCalls alphabet.now (wrap_refusal alphabet.now tree.now automaton.now (length sheet.old)) (wrapped alphabet.now tree.now automaton.now) result (restoring_slices sheet.old form.old counts.old restored.old) (restoring_slices sheet.new form.new counts.new restored.new) }
    ensures demand { Restored (wrap_refusal alphabet.now tree.now automaton.now (length sheet.old)) (wrapped alphabet.now tree.now automaton.now) tree.now result (restoring_slices sheet.old form.old counts.old restored.old) (restoring_slices sheet.new form.new counts.new restored.new) }
{
    let written = wrap(alphabet, tree, automaton, sheet);
    unfold_written(alphabet, written, sheet, form, counts, restored)
}
