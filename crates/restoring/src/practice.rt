// The practice sheet of a number, the form of what was written, and that form unfolded: the tree that the draws describe.
ghost use Rattle.std.specs.Prelude.{length};
ghost use Rattle.terms.specs.Tree.{preorder};
ghost use Rattle.practice_terms.specs.Practice.{practice_alphabet, practice_sheet, practice_refusal};
ghost use Rattle.practice_terms.specs.Described.{practice_tree};
ghost use Rattle.restoring.specs.Restore.{restoring_slices, RestoringCalls, Restored};

use crate::written::{Restoring, unfold_written};
use practice_rules::rules::ALPHABET;
use practice_sheets::practice::practice;

// The three calls in turn.
pub fn restore_practice(
    first: u32,
    m: usize,
    automaton: &[u8],
    sheet: &mut [u8],
    form: &mut [u8],
    counts: &mut [u64],
    tree: &mut [u8],
) -> Restoring
    ensures calls { RestoringCalls practice_alphabet (practice_refusal first m automaton.now (length sheet.old)) (practice_sheet first m automaton.now) result (restoring_slices sheet.old form.old counts.old tree.old) (restoring_slices sheet.new form.new counts.new tree.new) }
    ensures demand { Restored (practice_refusal first m automaton.now (length sheet.old)) (practice_sheet first m automaton.now) (preorder (practice_tree first m)) result (restoring_slices sheet.old form.old counts.old tree.old) (restoring_slices sheet.new form.new counts.new tree.new) }
{
    let written = practice(first, m, automaton, sheet);
    unfold_written(&ALPHABET, written, sheet, form, counts, tree)
}
