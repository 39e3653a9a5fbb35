// Opening a form: its check, and what is known of a form that passes it.
ghost use Rattle.std.specs.Prelude.{◌≡◌, IfOk};
ghost use Rattle.terms.specs.Answer.{refusal_of};
ghost use Rattle.terms.specs.Calls.{opening_refusal};
ghost use Rattle.forms.specs.Private.Opened.{IsOpened};

use crate::check::check_opening;
use crate::table::{CheckedForm, RuleTable};
use form_bytes::layout;
use terms::refusals::Refusal;

// The parts of a form that opens over an alphabet: the table of its rules and its start.
pub fn part_form<'a>(alphabet: &'a [u8], form: &'a [u8]) -> CheckedForm<'a>
    requires { opening_refusal alphabet.now form.now ≡ 0 }
    ensures { IsOpened alphabet.now form.now result }
{
    CheckedForm {
        table: RuleTable {
            alphabet,
            bytes: layout::table_of(form),
        },
        start: layout::start_of(form),
    }
}

// Opens a form over an alphabet: what is refused, or the parts of the form.
pub fn open_form<'a>(alphabet: &'a [u8], form: &'a [u8]) -> Result<CheckedForm<'a>, Refusal>
    ensures refusal { refusal_of result ≡ opening_refusal alphabet.now form.now }
    ensures parts { IfOk result (IsOpened alphabet.now form.now) }
{
    check_opening(alphabet, form)?;
    Ok(part_form(alphabet, form))
}
