// The entries of the rules of a table, by the transitions of an automaton.
ghost use Rattle.std.specs.Prelude.{◌≡◌, ◌-◌, ◌<◌, ◌≤◌, length};
ghost use Rattle.terms.specs.Relation.{relation_of};
ghost use Rattle.terms.specs.Sheet.{transitions_of};
ghost use Rattle.terms.specs.FormBytes.{table_count, table_rule};
ghost use Rattle.terms.specs.Check.{automaton_refusal};
ghost use Rattle.entries.specs.Entries.{entry_in, written_from};

use crate::entry::{entry_of, slot_states};
use form_bytes::rule::{Kind, rule_at};
use forms::table::RuleTable;
use relations::{apply, compose};
use terms::Rule;
use transition_links::links::LinkedAutomaton;
use transitions::step::{step_closed, step_open};

// The table of a form's rules, and an automaton over the same alphabet.
#[derive(Drop)]
pub struct Evaluator<'a> {
    pub table: RuleTable<'a>,
    pub linked: LinkedAutomaton<'a>,
    pub ghost same_alphabet: { linked.alphabet.now ≡ table.alphabet.now },
}

impl<'a> Evaluator<'a> {
    // An automaton that passes its check over the alphabet of a table.
    pub fn new(table: RuleTable<'a>, automaton: &'a [u8]) -> Self
        requires { automaton_refusal table.alphabet.now automaton.now ≡ 0 }
        ensures alphabet { result.table.alphabet.now ≡ table.entry.alphabet.now }
        ensures bytes { result.table.bytes.now ≡ table.entry.bytes.now }
        ensures automaton { result.linked.automaton.now ≡ automaton.now }
    {
        Evaluator {
            table,
            linked: LinkedAutomaton::new(table.alphabet, automaton),
        }
    }

    // The entry of a rule from the entries below it: of a node with the states of its slots, or of a chain of two.
    fn relation_of(&self, relations: &[u64], number: Rule) -> u64
        requires { number.0 < table_count self.now.table.bytes.now }
        ensures { result ≡ relation_of (transitions_of self.now.table.alphabet.now self.now.linked.automaton.now) (table_rule self.now.table.alphabet.now self.now.table.bytes.now number.0) (entry_in relations.now) }
    {
        let rule = rule_at(self.table.bytes, number);
        match self.table.kind_of(number) {
            Kind::Whole => {
                let sets = slot_states(relations, rule);
                u64::from(step_closed(&self.linked, rule.terminal, &sets))
            }
            Kind::Pierced => {
                let sets = slot_states(relations, rule);
                step_open(&self.linked, rule.terminal, sets, rule.hole as usize - 1)
            }
            Kind::Filled => {
                let outer = entry_of(relations, rule.slot0);
                let inner = entry_of(relations, rule.slot1);
                apply(outer, inner)
            }
            Kind::Composed => {
                let outer = entry_of(relations, rule.slot0);
                let inner = entry_of(relations, rule.slot1);
                compose(outer, inner)
            }
        }
    }

    // The entries of the rules from one number up to another, from the lowest on, each from the entries as they then are in the lent slice.
    pub fn write_entries(&self, from: Rule, end: usize, relations: &mut [u64])
        requires { (from.0 ≤ end) × (end ≤ table_count self.now.table.bytes.now) × (end ≤ length relations.old) }
        ensures { relations.new ≡ written_from self.now.table.alphabet.now self.now.linked.automaton.now self.now.table.bytes.now from.0 (end - from.0) relations.old }
    {
        for number in from.0..end as u16 {
            relations[number as usize] = self.relation_of(relations, Rule(number));
        }
    }
}
