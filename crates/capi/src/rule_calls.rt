// Reading a rule of a form.
ghost use Rattle.std.specs.Prelude.{◌≡◌, ◌++◌, ◌≤◌, length, drop};
ghost use Rattle.terms.specs.Answer.{refusal_of};
ghost use Rattle.terms.specs.FormBytes.{table_of};
ghost use Rattle.terms.specs.Calls.{lent_after};
ghost use Rattle.form_bytes.specs.Fields.{fields_at};
ghost use Rattle.opening.specs.Reading.{answer_of_rule, rule_reading};
ghost use Rattle.capi.specs.Result.{rule_numbers, rule_call_refusal};

use form_bytes::rule::FormRule;
use forms::check::check_opening;
use opening::read;
use terms::Rule;
use terms::refusals::Refusal;

// How many numbers a rule is: kind, terminal, hole and four slots.
const NUMBERS: usize = 7;

// The largest number of 16 bits, which no rule has.
const NO_RULE: u16 = u16::MAX;

// Opens a form and reads the rule of a number, which may be larger than rule numbers are.
fn read_number(alphabet: &[u8], form: &[u8], number: usize) -> Result<FormRule, Refusal>
    ensures { answer_of_rule result ≡ rule_reading alphabet.now form.now number }
{
    read(alphabet, form, Rule(number.min(NO_RULE as usize) as u16))
}

// The numbers of a rule, at the beginning of a slice.
fn write_numbers(read: FormRule, rule: &mut [u16])
    requires { 7 ≤ length rule.old }
    ensures { rule.new ≡ rule_numbers read ++ drop 7 rule.old }
{
    rule[0] = read.kind as u16;
    rule[1] = read.terminal.0 as u16;
    rule[2] = read.hole as u16;
    rule[3] = read.slot0.0;
    rule[4] = read.slot1.0;
    rule[5] = read.slot2.0;
    rule[6] = read.slot3.0;
}

// The numbers of the rule of a number into a slice.
#[tactic(auto, using(terms::proofs::InTurn::in_turn), unfolding(crate::specs::Result::rule_call_refusal))]
fn read_into(alphabet: &[u8], form: &[u8], number: usize, rule: &mut [u16]) -> Result<(), Refusal>
    ensures refusal { refusal_of result ≡ rule_call_refusal alphabet.now form.now number (length rule.old) }
    ensures rule { rule.new ≡ lent_after (rule_call_refusal alphabet.now form.now number (length rule.old)) (rule_numbers (fields_at (table_of form.now) number)) rule.old }
{
    if rule.len() < NUMBERS {
        check_opening(alphabet, form)?;
        return Err(Refusal::WorkShort);
    }
    write_numbers(read_number(alphabet, form, number)?, rule);
    Ok(())
}

// Kind, terminal, hole and four slots of the rule of a number.
#[unsafe(no_mangle)]
pub extern "C" fn ewf_read_rule(alphabet: &[u8], form: &[u8], number: usize, rule: &mut [u16]) -> u8
    ensures refusal { result ≡ rule_call_refusal alphabet.now form.now number (length rule.old) }
    ensures rule { rule.new ≡ lent_after (rule_call_refusal alphabet.now form.now number (length rule.old)) (rule_numbers (fields_at (table_of form.now) number)) rule.old }
{
    match read_into(alphabet, form, number, rule) {
        Ok(()) => 0,
        Err(refusal) => refusal.number(),
    }
}
