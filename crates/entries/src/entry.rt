// The entry of each rule of a table, from those of lower rules.
ghost use Rattle.std.specs.Prelude.{◌≡◌, [], ◌∷◌, ◌%◌};
ghost use Rattle.terms.specs.Relation.{states_at};
ghost use Rattle.entries.specs.Entries.{entry_in};

use form_bytes::rule::FormRule;
use terms::Rule;

// The entry of a rule, 0 where there is none: the slots that are not used name no rule.
pub(crate) fn entry_of(relations: &[u64], rule: Rule) -> u64
    ensures { result ≡ entry_in relations.now rule.0 }
{
    relations.get(rule.0 as usize).copied().unwrap_or(0)
}

// The states of a rule of rank 0: the low byte of its entry.
pub fn states_of(relations: &[u64], rule: Rule) -> u8
    ensures { result ≡ entry_in relations.now rule.0 % 256 }
{
    (entry_of(relations, rule) % 256) as u8
}

// The states of a rule's slots.
pub(crate) fn slot_states(relations: &[u64], rule: FormRule) -> [u8; 4]
    ensures { result ≡ states_at (entry_in relations.now) (rule.slot0.0 ∷ rule.slot1.0 ∷ rule.slot2.0 ∷ rule.slot3.0 ∷ []) }
{
    [
        states_of(relations, rule.slot0),
        states_of(relations, rule.slot1),
        states_of(relations, rule.slot2),
        states_of(relations, rule.slot3),
    ]
}
