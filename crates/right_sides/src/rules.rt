// The rules of a grammar, from the first to the last.
ghost use Rattle.right_sides.specs.Rules.{Grammar, RulesMade};

use crate::side::right_side;
use cells::builder::FormBuilder;
use checks::limits::MOST_RULES;
use grammars::cursor::RulesOf;
use terms::Rule;

// How many rules a form has, as the number of the rule that would be next, and its start.
#[derive(Clone, Copy)]
pub struct Whole {
    pub count: Rule,
    pub start: Rule,
}

// The rules of the form that is made of the rules of a body.
pub fn make_rules(table: &mut [u8], alphabet: &[u8], body: &[u8], rules: usize) -> Whole
    requires { Grammar table.old alphabet.now body.now rules }
    ensures { RulesMade table.old alphabet.now body.now table.new result }
{
    let mut builder = FormBuilder::new(table);
    let mut ranks = [0u8; MOST_RULES];
    let mut roots = [0; MOST_RULES];
    for (i, rule) in (RulesOf { body }).enumerate() {
        roots[i] = right_side(&mut builder, alphabet, &ranks, &roots, rule.nodes);
        ranks[i] = rule.rank;
    }
    let start = builder.cell(roots[rules - 1]).slot();
    Whole {
        count: builder.next_rule,
        start,
    }
}
