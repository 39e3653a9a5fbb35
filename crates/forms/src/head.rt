// The head of a form: what is asked of it for any bytes.
ghost use Rattle.std.specs.Prelude.{◌≡◌};
ghost use Rattle.terms.specs.FormBytes.{head_fits};

use checks::alphabet::check_alphabet;
use form_bytes::layout;

// The most rules of a form.
pub const MOST_RULES: usize = 2048;

// The head is in order. What is shorter than its head is refused before the head is read.
pub fn head_fits(form: &[u8]) -> bool
    ensures { result ≡ head_fits form.now }
{
    let terminals = layout::terminal_count(form);
    if form.len() < layout::head_length(terminals) {
        return false;
    }
    let count = layout::rule_count(form);
    1 <= count
        && count <= MOST_RULES
        && form.len() == layout::form_length(terminals, count)
        && check_alphabet(layout::alphabet_of(form)).is_ok()
}
