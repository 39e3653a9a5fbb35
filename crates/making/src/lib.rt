// Making a one-hole form from a sheet.
#![tactic(auto)]

ghost use Rattle.std.specs.Prelude.{◌≡◌, length, ◌≤◌};
ghost use Rattle.terms.specs.FormBytes.{head_length, form_length, behind_head};
ghost use Rattle.terms.specs.Answer.{answer, answer_of};
ghost use Rattle.terms.specs.Calls.{making_refusal};
ghost use Rattle.terms.specs.Sheet.{alphabet_of, rules_body, rules_of};
ghost use Rattle.skeletons.specs.Form.{made_form};
ghost use Rattle.cleaning_terms.specs.Cleaning.{cleaned};
ghost use Rattle.right_sides.specs.Rules.{Grammar};
ghost use Rattle.making.specs.Making.{form_of, form_left, FormMade};
ghost use Rattle.making.specs.Private.Read.{FormWritten};

use cleaning::clean::{LONGEST_BODY, clean};
use form_bytes::layout::{RANKS_OFFSET, RULE, form_length};
use form_writing::write::write_head;
use right_sides::rules::make_rules;
use rule_parameters::strict::is_strict;
use sheets::sheet::{Sheet, read_sheet};
use terms::refusals::Refusal;

// The form of the rules of a body, whose length is the answer; later bytes are kept.
fn write_form(form: &mut [u8], alphabet: &[u8], body: &[u8], rules: usize) -> usize
    requires { (head_length (length alphabet.now) ≤ length form.old) × Grammar (behind_head (length alphabet.now) form.old) alphabet.now body.now rules }
    ensures { FormWritten alphabet.now (rules_body body.now).rules (made_form alphabet.now (rules_body body.now).rules) result form.new form.old }
{
    let head = RANKS_OFFSET + alphabet.len();
    let made = make_rules(&mut form[head..], alphabet, body, rules);
    let count = made.count.0 as usize;
    let start = made.start;
    write_head(form, alphabet, count, start);
    head + RULE * count
}

// The form of the cleaned rules of a body, whose length is the answer; later bytes are kept. Rules that pass the test of `is_strict` are cleaned already, and
// their form is made of the body itself.
fn write_cleaned(form: &mut [u8], alphabet: &[u8], body: &[u8], rules: usize) -> usize
    requires { (head_length (length alphabet.now) ≤ length form.old) × Grammar (behind_head (length alphabet.now) form.old) alphabet.now body.now rules }
    ensures { FormWritten alphabet.now (rules_body body.now).rules (made_form alphabet.now (cleaned alphabet.now (rules_body body.now).rules)) result form.new form.old }
{
    if is_strict(body) {
        return write_form(form, alphabet, body, rules);
    }
    let mut cleaned = [0u8; LONGEST_BODY];
    let end = clean(alphabet, body, &mut cleaned);
    write_form(form, alphabet, &cleaned[..end], rules)
}

// A form of a sheet that was read, into a slice with room for it: the answer is its length, and later bytes are kept.
pub fn make_read(sheet: &Sheet<'_>, form: &mut [u8]) -> usize
    requires { form_length (length sheet.now.alphabet.now) sheet.now.asked ≤ length form.old }
    ensures { FormWritten (alphabet_of sheet.now.bytes.now) (rules_of sheet.now.bytes.now) (form_of sheet.now.bytes.now) result form.new form.old }
{
    write_cleaned(form, sheet.alphabet, sheet.rules, sheet.count)
}

// A form of the sheet, into a lent slice.
#[tactic(auto, using(terms::proofs::InTurn::in_turn), unfolding(terms::specs::Calls::making_refusal))]
pub fn make_form(sheet: &[u8], form: &mut [u8]) -> Result<usize, Refusal>
    ensures answer { answer_of result ≡ answer (making_refusal sheet.now (length form.old)) (length (form_of sheet.now)) }
    ensures slice { form.new ≡ form_left sheet.now form.old }
    ensures form { making_refusal sheet.now (length form.old) ≡ 0 → FormMade sheet.now (length form.old) }
{
    let read = read_sheet(sheet)?;
    if form.len() < form_length(read.alphabet.len(), read.asked) {
        return Err(Refusal::FormShort);
    }
    Ok(make_read(&read, form))
}
