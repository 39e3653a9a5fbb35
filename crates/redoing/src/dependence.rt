// Whether a rule depends on a terminal.
ghost use Rattle.std.specs.Prelude.{◌≡◌};
ghost use Rattle.redoing.specs.Redoing.{flag_of, has_terminal_by, depends_by};

use form_bytes::rule::FormRule;
use forms::head::MOST_RULES;
use terms::{Rule, Terminal};

// The flag of a rule, none where there is no such rule: the slots that are not used name no rule.
fn flag_of(flags: &[bool; MOST_RULES], rule: Rule) -> bool
    ensures { result ≡ flag_of flags.now rule.0 }
{
    flags.get(rule.0 as usize).copied().unwrap_or(false)
}

// Whether a rule is of kind 0 or 1 with a terminal. The kind is a number here, as the fields of a rule have it, for any bytes.
fn has_terminal(rule: FormRule, terminal: Terminal) -> bool
    ensures { result ≡ has_terminal_by rule terminal.0 }
{
    rule.kind < 2 && rule.terminal.0 == terminal.0
}

// Whether a rule depends on a terminal, where the flags say it of the rules that it calls.
#[tactic(auto, unfolding(terms::specs::Test::any))]
pub fn depends(rule: FormRule, flags: &[bool; MOST_RULES], terminal: Terminal) -> bool
    ensures { result ≡ depends_by rule flags.now terminal.0 }
{
    has_terminal(rule, terminal)
        || flag_of(flags, rule.slot0)
        || flag_of(flags, rule.slot1)
        || flag_of(flags, rule.slot2)
        || flag_of(flags, rule.slot3)
}
