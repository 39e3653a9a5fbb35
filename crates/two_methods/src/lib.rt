// The blackboard method and the four calls of demand 3, over one sheet: the course teaches both, and they answer the same mask (document 02, R-7).
#![tactic(auto)]

ghost use Rattle.certificate.specs.Certify.{slices};
ghost use Rattle.two_methods.specs.Methods.{BothCalled, SameMask};

use blackboard::blackboard;
use certificate::certify::{Answers, certify};
use terms::refusals::Refusal;

// What both methods answer.
#[derive(Clone, Copy, Debug, PartialEq, Eq)]
pub struct BothAnswers {
    pub tabled: Result<u8, Refusal>,
    pub certified: Answers,
}

// The blackboard method, then the four calls in turn.
pub fn both_methods(
    sheet: &[u8],
    table: &mut [u8],
    form: &mut [u8],
    relations: &mut [u64],
    counts: &mut [u64],
    tree: &mut [u8],
    masks: &mut [u8],
) -> BothAnswers
    ensures calls { BothCalled sheet.now result table.old form.old (slices relations.old counts.old tree.old masks.old) table.new form.new (slices relations.new counts.new tree.new masks.new) }
    ensures same { SameMask sheet.now result table.old form.old (slices relations.old counts.old tree.old masks.old) form.new (slices relations.new counts.new tree.new masks.new) }
{
    let tabled = blackboard(sheet, table);
    let certified = certify(sheet, form, relations, counts, tree, masks);
    BothAnswers { tabled, certified }
}
