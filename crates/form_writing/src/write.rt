// Writing a form: the rules of its table one by one, and its head.
ghost use Rattle.std.specs.Prelude.{◌≡◌, ◌+◌, ◌*◌, ◌≤◌, length};
ghost use Rattle.terms.specs.Check.{most_terminals};
ghost use Rattle.terms.specs.FormBytes.{head_length, rule_length, head_front};
ghost use Rattle.form_writing.specs.Bytes.{bytes_of, RuleWritten, HeadWritten};

use copying::copy;
use form_bytes::layout::{RANKS_OFFSET, RULE};
use form_bytes::rule::FormRule;
use terms::Rule;

// The bytes of a rule.
fn rule_bytes(rule: FormRule) -> [u8; RULE]
    ensures { result ≡ bytes_of rule }
{
    let slot0 = rule.slot0.0.to_le_bytes();
    let slot1 = rule.slot1.0.to_le_bytes();
    let slot2 = rule.slot2.0.to_le_bytes();
    let slot3 = rule.slot3.0.to_le_bytes();
    [
        rule.kind,
        rule.terminal.0,
        rule.hole,
        0,
        slot0[0],
        slot0[1],
        slot1[0],
        slot1[1],
        slot2[0],
        slot2[1],
        slot3[0],
        slot3[1],
    ]
}

// The bytes of the head before its ranks: the number of rules, the start and the number of terminals.
fn head_front(count: usize, start: Rule, terminals: u8) -> [u8; RANKS_OFFSET]
    ensures { result ≡ head_front count start.0 terminals }
{
    let count = count.to_le_bytes();
    let start = start.0.to_le_bytes();
    [count[0], count[1], start[0], start[1], terminals]
}

// Writes the rule of a number into the table.
pub fn write_rule(table: &mut [u8], number: Rule, rule: FormRule)
    requires { rule_length * number.0 + rule_length ≤ length table.old }
    ensures { RuleWritten number.0 rule table.new table.old }
{
    let at = RULE * (number.0 as usize);
    table[at..at + RULE].copy_from_slice(&rule_bytes(rule));
}

// Writes the head: the number of rules, the start, and the alphabet.
pub fn write_head(form: &mut [u8], alphabet: &[u8], count: usize, start: Rule)
    requires { (head_length (length alphabet.now) ≤ length form.old) × (length alphabet.now ≤ most_terminals) }
    ensures { HeadWritten alphabet.now count start.0 form.new form.old }
{
    let front = head_front(count, start, alphabet.len() as u8);
    form[..RANKS_OFFSET].copy_from_slice(&front);
    copy(
        alphabet,
        &mut form[RANKS_OFFSET..RANKS_OFFSET + alphabet.len()],
    );
}
