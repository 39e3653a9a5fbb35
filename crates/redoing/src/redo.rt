// One pass over the rules of a table: the entries of those that depend on a terminal are worked out again, the others are kept.
ghost use Rattle.std.specs.Prelude.{◌≡◌, ◌<◌, ◌≤◌, length};
ghost use Rattle.terms.specs.FormBytes.{table_count};
ghost use Rattle.terms.specs.Calls.{lent_after};
ghost use Rattle.redoing.specs.Redoing.{flags_after, entries_after, redone_in};

use crate::dependence::depends;
use entries::evaluator::Evaluator;
use form_bytes::rule::rule_at;
use forms::head::MOST_RULES;
use terms::{Rule, Terminal};

// Flags a rule and redoes its entry where it depends on the terminal.
fn redo_rule(
    evaluator: &Evaluator,
    terminal: Terminal,
    number: Rule,
    dependent: &mut [bool; MOST_RULES],
    relations: &mut [u64],
)
    requires { (number.0 < table_count evaluator.now.table.bytes.now) × (table_count evaluator.now.table.bytes.now ≤ length relations.old) }
    ensures dependent_after { dependent.new ≡ flags_after evaluator.now.table.bytes.now terminal.0 number.0 dependent.old }
    ensures relations_after { relations.new ≡ entries_after evaluator.now.table.alphabet.now evaluator.now.linked.automaton.now evaluator.now.table.bytes.now terminal.0 number.0 dependent.old relations.old }
{
    let rule = rule_at(evaluator.table.bytes, number);
    if depends(rule, dependent, terminal) {
        let place = number.0 as usize;
        dependent[place] = true;
        evaluator.write_entries(number, place + 1, relations);
    }
}

// Redoes the entries of the rules that depend on a terminal, from the lowest on, each from the entries as they then are in the lent slice.
pub fn redo_relations(evaluator: &Evaluator, terminal: Terminal, relations: &mut [u64])
    requires { table_count evaluator.now.table.bytes.now ≤ length relations.old }
    ensures { relations.new ≡ lent_after 0 (redone_in evaluator.now.table.alphabet.now evaluator.now.linked.automaton.now evaluator.now.table.bytes.now terminal.0 relations.old) relations.old }
{
    let mut dependent = [false; MOST_RULES];
    for number in 0..evaluator.table.count() as u16 {
        redo_rule(evaluator, terminal, Rule(number), &mut dependent, relations);
    }
}
