// The tables of all rules of a body.
ghost use Rattle.rule_tables.specs.Rules.{RulesReady, TablesWritten};

use crate::table::write_table;
use cleaning::clean::{LONGEST_BODY, clean_noting};
use cleaning::notes::Notes;
use grammars::cursor::RulesOf;
use terms::Rule;
use transition_links::links::LinkedAutomaton;

// Writes the tables of the rules, one behind the other, from the start of a slice. Cleaning notes which parameters are present in what each rule derives; the
// cleaned rules are not used.
pub fn write_tables(alphabet: &[u8], automaton: &[u8], body: &[u8], tables: &mut [u8])
    requires { RulesReady alphabet.now automaton.now body.now tables.old }
    ensures { TablesWritten alphabet.now automaton.now body.now tables.old tables.new }
{
    let mut cleaned = [0u8; LONGEST_BODY];
    let mut notes = Notes::none();
    clean_noting(alphabet, body, &mut notes, &mut cleaned);
    let linked = LinkedAutomaton::new(alphabet, automaton);
    for (number, rule) in (RulesOf { body }).enumerate() {
        write_table(
            &linked,
            tables,
            &notes.ranks,
            &notes.present,
            rule.nodes,
            Rule(number as u16),
        );
    }
}
