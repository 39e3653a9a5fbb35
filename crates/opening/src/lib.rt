// Opening a one-hole form, which is done once, and reading its rules by number.
#![tactic(auto)]

ghost use Rattle.std.specs.Prelude.{◌≡◌, IfOk};
ghost use Rattle.terms.specs.FormBytes.{rule_count};
ghost use Rattle.terms.specs.Answer.{refusal_of, answer_of, answer};
ghost use Rattle.terms.specs.Calls.{opening_refusal};
ghost use Rattle.opening.specs.Reading.{answer_of_rule, rule_reading};
ghost use Rattle.opening.specs.Opening.{IsRuleOf, reading_of};

use form_bytes::layout;
use form_bytes::rule::{FormRule, rule_at};
use forms::check::check_opening;
use terms::Rule;
use terms::refusals::Refusal;

// A form that was opened: its bytes, and the number of its rules. Its fields are this crate's own, so that only `open` makes one.
#[derive(Clone, Copy)]
pub struct OpenForm<'a> {
    form: &'a [u8],
    rules: usize,
}

// Checks a form that is given with an alphabet, and counts its rules.
#[tactic(auto, using(terms::proofs::InTurn::in_turn))]
pub fn check_and_count(alphabet: &[u8], form: &[u8]) -> Result<usize, Refusal>
    ensures { answer_of result ≡ answer (opening_refusal alphabet.now form.now) (rule_count form.now) }
{
    check_opening(alphabet, form)?;
    Ok(layout::rule_count(form))
}

// The rule of a number, of a form of which so many rules were found, or which was refused: the refusal is handed on as it is, and 21 is said where the number is not
// below the rules or the rule does not stand whole in the bytes.
pub fn rule_of<E: From<Refusal>>(
    form: &[u8],
    opened: Result<usize, E>,
    number: Rule,
) -> Result<FormRule, E>
    ensures { IsRuleOf E.from_gives form.now opened number.0 result }
{
    let rules = opened?;
    let place = number.0 as usize;
    if rules <= place || form.len() < layout::form_length(layout::terminal_count(form), place + 1) {
        return Err(E::from(Refusal::NoPlace));
    }
    Ok(rule_at(layout::table_of(form), number))
}

// Opens a form: refused by 3 and 4 for the alphabet, 18 for the form, 28 where the form carries another alphabet.
pub fn open<'a>(alphabet: &[u8], form: &'a [u8]) -> Result<OpenForm<'a>, Refusal>
    ensures refusal { refusal_of result ≡ opening_refusal alphabet.now form.now }
    ensures parts { IfOk result (λ opened. (opened.form ≡ form.entry) × (opened.rules ≡ rule_count form.now)) }
{
    let rules = check_and_count(alphabet, form)?;
    Ok(OpenForm { form, rules })
}

// Reads the rule of a number of a form that was opened.
pub fn rule<'a>(opened: Result<OpenForm<'a>, Refusal>, number: Rule) -> Result<FormRule, Refusal>
    ensures { answer_of_rule result ≡ reading_of opened.entry number.0 }
{
    let form = opened?;
    rule_of(form.form, Ok(form.rules), number)
}

// Opens a form and reads the rule of a number.
pub fn read(alphabet: &[u8], form: &[u8], number: Rule) -> Result<FormRule, Refusal>
    ensures { answer_of_rule result ≡ rule_reading alphabet.now form.now number.0 }
{
    rule(open(alphabet, form), number)
}
