// What a call under a C name answers: 0, or the number of its refusal.
ghost use Rattle.std.specs.Prelude.{◌≡◌};
ghost use Rattle.terms.specs.Answer.{refusal_of};
ghost use Rattle.capi.specs.Result.{value_or};

use terms::refusals::Refusal;

// The number of the refusal; or 0, and the value goes through the reference.
pub fn hand_out<T: Copy>(answer: Result<T, Refusal>, place: &mut T) -> u8
    ensures number { result ≡ refusal_of answer }
    ensures place { place.new ≡ value_or answer place.old }
{
    match answer {
        Ok(value) => {
            *place = value;
            0
        }
        Err(refusal) => refusal.number(),
    }
}
