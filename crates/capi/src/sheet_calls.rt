// The calls on a sheet.
ghost use Rattle.std.specs.Prelude.{◌≡◌, length};
ghost use Rattle.terms.specs.Check.{sheet_refusal};
ghost use Rattle.terms.specs.Sheet.{sheet_mask};
ghost use Rattle.terms.specs.Calls.{lent_after, rules_asked, form_asked, making_refusal};
ghost use Rattle.blackboard_terms.specs.Blackboard.{tables_of, blackboard_refusal};
ghost use Rattle.making.specs.Making.{form_of, form_left, FormMade};
ghost use Rattle.capi.specs.Result.{result_after};

use crate::answers::hand_out;
use blackboard::blackboard;
use lending::room;
use making::make_form;

// How many bytes form making and marking ask for, and how many numbers marking asks for.
#[unsafe(no_mangle)]
#[tactic(auto, using(crate::proofs::Answered::said))]
pub extern "C" fn ewf_room(sheet: &[u8], bytes: &mut usize, numbers: &mut usize) -> u8
    ensures refusal { result ≡ sheet_refusal sheet.now }
    ensures bytes { bytes.new ≡ result_after (sheet_refusal sheet.now) (form_asked sheet.now) bytes.old }
    ensures numbers { numbers.new ≡ result_after (sheet_refusal sheet.now) (rules_asked sheet.now) numbers.old }
{
    match room(sheet) {
        Ok(asked) => {
            *bytes = asked.bytes;
            *numbers = asked.numbers;
            0
        }
        Err(refusal) => refusal.number(),
    }
}

// The one-hole form of a sheet, and its length.
#[unsafe(no_mangle)]
#[tactic(auto, using(crate::proofs::Answered::said))]
pub extern "C" fn ewf_make_form(sheet: &[u8], form: &mut [u8], written: &mut usize) -> u8
    ensures refusal { result ≡ making_refusal sheet.now (length form.old) }
    ensures written { written.new ≡ result_after (making_refusal sheet.now (length form.old)) (length (form_of sheet.now)) written.old }
    ensures slice { form.new ≡ form_left sheet.now form.old }
    ensures form { making_refusal sheet.now (length form.old) ≡ 0 → FormMade sheet.now (length form.old) }
{
    hand_out(make_form(sheet, form), written)
}

// The tables of a sheet's rules by the blackboard method, and the mask by them.
#[unsafe(no_mangle)]
#[tactic(auto, using(crate::proofs::Answered::said))]
pub extern "C" fn ewf_blackboard(sheet: &[u8], table: &mut [u8], mask: &mut u8) -> u8
    ensures refusal { result ≡ blackboard_refusal sheet.now (length table.old) }
    ensures table { table.new ≡ lent_after (blackboard_refusal sheet.now (length table.old)) (tables_of sheet.now) table.old }
    ensures mask { mask.new ≡ result_after (blackboard_refusal sheet.now (length table.old)) (sheet_mask sheet.now) mask.old }
{
    hand_out(blackboard(sheet, table), mask)
}
