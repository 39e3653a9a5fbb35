// How much form making and marking ask to be lent for a sheet.
#![tactic(auto)]

ghost use Rattle.std.specs.Prelude.{◌≡◌};
ghost use Rattle.terms.specs.Answer.{answer};
ghost use Rattle.terms.specs.Check.{sheet_refusal};
ghost use Rattle.terms.specs.Calls.{room_asked};
ghost use Rattle.lending.specs.Room.{answer_of_room};

use form_bytes::layout::form_length;
use sheets::sheet::read_sheet;
use terms::refusals::Refusal;

// What a sheet asks to be lent: bytes for the form, and numbers for its relations.
#[derive(Clone, Copy, Debug, PartialEq, Eq)]
pub struct Asked {
    pub bytes: usize,
    pub numbers: usize,
}

// What is refused of a sheet, or how many bytes form making and marking ask for, and how many numbers marking asks for.
#[tactic(auto, using(terms::proofs::InTurn::in_turn))]
pub fn room(sheet: &[u8]) -> Result<Asked, Refusal>
    ensures { answer_of_room result ≡ answer (sheet_refusal sheet.now) (room_asked sheet.now) }
{
    let sheet = read_sheet(sheet)?;
    Ok(Asked {
        bytes: form_length(sheet.alphabet.len(), sheet.asked),
        numbers: sheet.asked,
    })
}
