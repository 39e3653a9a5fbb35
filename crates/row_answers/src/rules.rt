// The rules of a form that is opened once.
use crate::answers::{Read, say};
use opening::{check_and_count, rule_of};
use std::io;
use std::io::Write;
use terms::Rule;

// The rule of a number, the last of all where the number is larger.
pub fn rule_number(number: usize) -> Rule {
    Rule(u16::try_from(number).unwrap_or(u16::MAX))
}

// Opens a form, and prints its rules by their numbers, then what reading says of the number after the last. Of a form that is refused only the refusal is printed.
pub fn say_rules(output: &mut impl Write, alphabet: &[u8], form: &[u8]) -> io::Result<()> {
    let opened = check_and_count(alphabet, form);
    for number in 0..=opened.unwrap_or(0) {
        if 0 < number {
            write!(output, ", ")?;
        }
        say(output, rule_of(form, opened, rule_number(number)).map(Read))?;
    }
    Ok(())
}
