// The blackboard method, straight on a sheet: for each rule a yes or no for every choice of states at its parameters and root (document 02, R-7; source document
// 003, Theorem 1).
#![tactic(auto)]

ghost use Rattle.std.specs.Prelude.{◌≡◌, ◌≤◌, ◌*◌, length};
ghost use Rattle.terms.specs.Answer.{answer, answer_of};
ghost use Rattle.terms.specs.Sheet.{sheet_mask};
ghost use Rattle.terms.specs.Calls.{lent_after};
ghost use Rattle.blackboard_terms.specs.Blackboard.{table_length, tables_of, blackboard_refusal};
ghost use Rattle.blackboard.specs.Runs.{RightByRuns};

use lane_calls::call::TABLE_LENGTH;
use rule_tables::rules::write_tables;
use sheets::sheet::{Sheet, read_sheet};
use terms::refusals::Refusal;

// Writes the tables of a sheet that was read, into a slice with room for them: the answer is the mask, which is the first byte of the start's table.
fn table_read(sheet: &Sheet<'_>, table: &mut [u8]) -> u8
    requires { table_length * sheet.now.count ≤ length table.old }
    ensures value { result ≡ sheet_mask sheet.now.bytes.now }
    ensures table_after { table.new ≡ lent_after 0 (tables_of sheet.now.bytes.now) table.old }
{
    write_tables(sheet.alphabet, sheet.automaton, sheet.rules, table);
    table[TABLE_LENGTH * (sheet.count - 1)]
}

// The blackboard method: refused by 1 to 16 for the sheet, 19 for a slice with fewer than 4,096 bytes for each rule. The slice ends with the tables of the rules,
// its later bytes kept, and the answer is the mask. Tables and mask are what runs say.
#[tactic(auto, using(terms::proofs::InTurn::in_turn), unfolding(blackboard_terms::specs::Blackboard::blackboard_refusal))]
pub fn blackboard(sheet: &[u8], table: &mut [u8]) -> Result<u8, Refusal>
    ensures answer { answer_of result ≡ answer (blackboard_refusal sheet.now (length table.old)) (sheet_mask sheet.now) }
    ensures table { table.new ≡ lent_after (blackboard_refusal sheet.now (length table.old)) (tables_of sheet.now) table.old }
    ensures runs { RightByRuns sheet.now (answer_of result) table.new }
{
    let read = read_sheet(sheet)?;
    if table.len() < TABLE_LENGTH * read.count {
        return Err(Refusal::WorkShort);
    }
    Ok(table_read(&read, table))
}
