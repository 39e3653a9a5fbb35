// The C name of the practice sheet.
ghost use Rattle.std.specs.Prelude.{◌≡◌, length};
ghost use Rattle.terms.specs.Calls.{lent_after};
ghost use Rattle.practice_terms.specs.Practice.{practice_sheet, practice_refusal};
ghost use Rattle.capi.specs.Result.{result_after};

use crate::answers::hand_out;
use practice_sheets::practice::practice;

// The practice sheet of a first x and m, and its length.
#[unsafe(no_mangle)]
#[tactic(auto, using(crate::proofs::Answered::said))]
pub extern "C" fn ewf_practice(
    first: u32,
    m: usize,
    automaton: &[u8],
    sheet: &mut [u8],
    written: &mut usize,
) -> u8
    ensures refusal { result ≡ practice_refusal first m automaton.now (length sheet.old) }
    ensures sheet { sheet.new ≡ lent_after (practice_refusal first m automaton.now (length sheet.old)) (practice_sheet first m automaton.now) sheet.old }
    ensures written { written.new ≡ result_after (practice_refusal first m automaton.now (length sheet.old)) (length (practice_sheet first m automaton.now)) written.old }
{
    hand_out(practice(first, m, automaton, sheet), written)
}
