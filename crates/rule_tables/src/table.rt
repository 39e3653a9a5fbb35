// The table of a rule.
ghost use Rattle.rule_tables.specs.Table.{TableReady, TableWritten};

use crate::bytes::write_lanes;
use crate::choice::{are_states, choices_of, lanes_of};
use checks::limits::MOST_RULES;
use lane_calls::call::TABLE_LENGTH;
use rule_parameters::numbers::FLAGS;
use side_relations::side::{LowerRules, side_relation};
use terms::Rule;
use transition_links::links::LinkedAutomaton;

// Writes the table of a rule behind those of the lower rules: clears it, and then writes the relation of the right side for each choice of states at the
// parameters behind the first.
pub fn write_table(
    linked: &LinkedAutomaton,
    tables: &mut [u8],
    ranks: &[u8; MOST_RULES],
    present: &[bool; FLAGS],
    nodes: &[u8],
    rule: Rule,
)
    requires { TableReady linked.now.alphabet.now linked.now.automaton.now tables.old ranks.now present.now nodes.now rule.0 }
    ensures { TableWritten linked.now.alphabet.now linked.now.automaton.now tables.old ranks.now present.now nodes.now rule.0 tables.new }
{
    let number = rule.0 as usize;
    let start = TABLE_LENGTH * number;
    let end = start + TABLE_LENGTH;
    tables[start..end].fill(0);
    let states = linked.automaton[0];
    let lanes = lanes_of(ranks[number], states);
    let choices = choices_of(ranks[number]);
    for choice in 0..choices {
        if are_states(choice, states) {
            let lower = LowerRules {
                tables: &*tables,
                ranks,
                present,
            };
            let relation = side_relation(linked, &lower, nodes, choice, lanes);
            let at = start + 8 * choice;
            write_lanes(&mut tables[at..end], relation, lanes);
        }
    }
}
