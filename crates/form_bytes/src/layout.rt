// How a form is parted: the head, which has the number of rules, the start and the alphabet, then the table of the rules.
ghost use Rattle.std.specs.Prelude.{◌≡◌, ◌<◌, ◌≤◌, length};
ghost use Rattle.terms.specs.FormBytes.{head_length, form_length, rule_count, start_of, terminal_count, head_alphabet, table_of};

use terms::Rule;

// Where the ranks begin in the head: behind the rule count and the start, two bytes each, and the terminal count.
pub const RANKS_OFFSET: usize = 5;

// How many bytes a rule has: kind, terminal, hole, 00, and four slots of two bytes.
pub const RULE: usize = 12;

// How many bytes a head of so many terminals has.
pub fn head_length(terminals: usize) -> usize
    requires { terminals ≤ 65536 }
    ensures { result ≡ head_length terminals }
{
    RANKS_OFFSET + terminals
}

// How many bytes a form of so many terminals and rules has.
pub fn form_length(terminals: usize, rules: usize) -> usize
    requires { (terminals ≤ 65536) × (rules ≤ 65536) }
    ensures { result ≡ form_length terminals rules }
{
    head_length(terminals) + RULE * rules
}

// The number of terminals, 0 where the bytes end before it.
pub fn terminal_count(form: &[u8]) -> usize
    ensures { (result ≡ terminal_count form.now) × (result < 256) }
{
    form.get(RANKS_OFFSET - 1).copied().unwrap_or(0) as usize
}

// The number of rules.
pub fn rule_count(form: &[u8]) -> usize
    requires { head_length (terminal_count form.now) ≤ length form.now }
    ensures { (result ≡ rule_count form.now) × (result < 65536) }
{
    checks::bytes::word(form, 0)
}

// The number of the start.
pub fn start_of(form: &[u8]) -> Rule
    requires { head_length (terminal_count form.now) ≤ length form.now }
    ensures { result.0 ≡ start_of form.now }
{
    Rule(checks::bytes::word(form, 2) as u16)
}

// The alphabet in the head: the rank of each terminal.
pub fn alphabet_of(form: &[u8]) -> &[u8]
    requires { head_length (terminal_count form.now) ≤ length form.now }
    ensures { result.now ≡ head_alphabet form.now }
{
    let end = head_length(terminal_count(form));
    &form[RANKS_OFFSET..end]
}

// The table of the rules.
pub fn table_of(form: &[u8]) -> &[u8]
    requires { head_length (terminal_count form.now) ≤ length form.now }
    ensures { result.now ≡ table_of form.now }
{
    let end = head_length(terminal_count(form));
    &form[end..]
}
