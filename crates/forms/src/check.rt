// The check of a form: what is refused of it, for any bytes.
ghost use Rattle.std.specs.Prelude.{◌≡◌, true, ◌*◌, ◌≤◌, length};
ghost use Rattle.terms.specs.Answer.{refusal_of};
ghost use Rattle.terms.specs.Test.{every};
ghost use Rattle.terms.specs.FormBytes.{rule_length, rule_fits, most_form_rules, head_fits, start_and_rules_fit, form_refusal};
ghost use Rattle.terms.specs.Calls.{opening_refusal};

use crate::head::head_fits;
use checks::alphabet::check_alphabet;
use form_bytes::layout;
use rule_checks::rule_fits;
use slot_checks::calls_lower;
use terms::Rule;
use terms::refusals::Refusal;

// The first `count` rules of a table all fit.
fn rules_fit(alphabet: &[u8], table: &[u8], count: usize) -> bool
    requires { (rule_length * count ≤ length table.now) × (count ≤ most_form_rules) }
    ensures { result ≡ every count (rule_fits alphabet.now table.now) }
{
    for number in (0..count as u16).rev() {
        if !rule_fits(alphabet, table, Rule(number)) {
            return false;
        }
    }
    true
}

// Where the head is in order: the start is a rule of rank 0, and all rules fit for the alphabet.
fn start_and_rules_fit(alphabet: &[u8], form: &[u8]) -> bool
    requires { head_fits form.now ≡ true }
    ensures { result ≡ start_and_rules_fit alphabet.now form.now }
{
    let table = layout::table_of(form);
    let count = layout::rule_count(form);
    calls_lower(table, count, 0, layout::start_of(form)) && rules_fit(alphabet, table, count)
}

// What is refused of a form that is given with an alphabet: 18 where the form is not valid for the alphabet that it carries, 28 where it carries another one than
// the alphabet given.
pub fn check_form(alphabet: &[u8], form: &[u8]) -> Result<(), Refusal>
    ensures { refusal_of result ≡ form_refusal alphabet.now form.now }
{
    if !head_fits(form) {
        return Err(Refusal::Form);
    }
    let carried = layout::alphabet_of(form);
    if !start_and_rules_fit(carried, form) {
        return Err(Refusal::Form);
    }
    if alphabet != carried {
        return Err(Refusal::OtherAlphabet);
    }
    Ok(())
}

// What is refused when a form is opened: 3 and 4 of the alphabet given, 18, 28.
#[tactic(auto, using(terms::proofs::InTurn::in_turn), unfolding(terms::specs::Calls::opening_refusal))]
pub fn check_opening(alphabet: &[u8], form: &[u8]) -> Result<(), Refusal>
    ensures { refusal_of result ≡ opening_refusal alphabet.now form.now }
{
    check_alphabet(alphabet)?;
    check_form(alphabet, form)
}
