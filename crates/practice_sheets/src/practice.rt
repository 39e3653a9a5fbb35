// The practice sheet of a number: drawn rules over a fixed alphabet, with the automaton given.
ghost use Rattle.std.specs.Prelude.{◌≡◌, ltb, length};
ghost use Rattle.terms.specs.Refusal.{◌when◌};
ghost use Rattle.terms.specs.Answer.{answer, answer_of, refusal_of};
ghost use Rattle.terms.specs.Calls.{lent_after};
ghost use Rattle.practice_terms.specs.Practice.{practice_sheet, given_refusal, practice_refusal};

use automata::check::check_automaton;
use checks::limits::CONTENTS;
use practice_rules::rules::{ALPHABET, LONGEST_RULES, MOST_DRAWN, write_rules};
use sheet_bytes::write::write_sheet;
use terms::refusals::Refusal;

// What is refused of m and the automaton.
fn check_given(m: usize, automaton: &[u8]) -> Result<(), Refusal>
    ensures { refusal_of result ≡ given_refusal m automaton.now }
{
    if m < 1 || MOST_DRAWN < m {
        return Err(Refusal::DrawnRules);
    }
    check_automaton(&ALPHABET, automaton)
}

// The sheet of what passed the checks, where it fits the slice.
fn practice_into(first: u32, m: usize, automaton: &[u8], sheet: &mut [u8]) -> Result<usize, Refusal>
    requires { given_refusal m automaton.now ≡ 0 }
    ensures result_value { answer_of result ≡ answer (24 when (ltb (length sheet.old) (length (practice_sheet first m automaton.now)))) (length (practice_sheet first m automaton.now)) }
    ensures sheet_after { sheet.new ≡ lent_after (24 when (ltb (length sheet.old) (length (practice_sheet first m automaton.now)))) (practice_sheet first m automaton.now) sheet.old }
{
    let mut rules = [0; LONGEST_RULES];
    let end = write_rules(first, m, &mut rules);
    if sheet.len() < CONTENTS + ALPHABET.len() + end + automaton.len() {
        return Err(Refusal::SheetShort);
    }
    Ok(write_sheet(&ALPHABET, &rules[..end], automaton, sheet))
}

// The practice sheet of a first x and m, into a lent slice; the answer is its length.
#[tactic(auto, using(terms::proofs::InTurn::in_turn, terms::proofs::Refusal::or_none), unfolding(practice_terms::specs::Practice::practice_refusal))]
pub fn practice(first: u32, m: usize, automaton: &[u8], sheet: &mut [u8]) -> Result<usize, Refusal>
    ensures result_value { answer_of result ≡ answer (practice_refusal first m automaton.now (length sheet.old)) (length (practice_sheet first m automaton.now)) }
    ensures sheet_after { sheet.new ≡ lent_after (practice_refusal first m automaton.now (length sheet.old)) (practice_sheet first m automaton.now) sheet.old }
{
    check_given(m, automaton)?;
    practice_into(first, m, automaton, sheet)
}
