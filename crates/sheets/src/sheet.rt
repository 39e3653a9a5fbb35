// Reading a sheet of any length: what is refused of it, or its bodies.
ghost use Rattle.std.specs.Prelude.{◌≡◌, true, ◌≤◌, length, IfOk};
ghost use Rattle.terms.specs.Answer.{refusal_of};
ghost use Rattle.terms.specs.Sheet.{body, alphabet_of, rules_of, automaton_of};
ghost use Rattle.terms.specs.Check.{joins, most_terminals, sheet_refusal};
ghost use Rattle.terms.specs.Calls.{rules_asked, most_asked};

use crate::limits::LONGEST_SHEET;
use automata::check::check_automaton;
use checks::alphabet::check_alphabet;
use checks::bytes::word;
use checks::limits::CONTENTS;
use grammars::rules::{Rules, read_rules};
use terms::refusals::Refusal;

// A sheet that refusals 1 to 16 let through: its bytes, its bodies, how many rules it has, and how many rules a form of it may take.
#[derive(Clone, Copy)]
pub struct Sheet<'a> {
    pub bytes: &'a [u8],
    pub alphabet: &'a [u8],
    pub rules: &'a [u8],
    pub automaton: &'a [u8],
    pub count: usize,
    pub asked: usize,
    pub ghost passes: { sheet_refusal bytes.now ≡ 0 },
    pub ghost alphabet_is: { alphabet.now ≡ alphabet_of bytes.now },
    pub ghost rules_are: { rules.now ≡ body bytes.now 1 },
    pub ghost automaton_is: { automaton.now ≡ automaton_of bytes.now },
    pub ghost counted: { count ≡ length (rules_of bytes.now) },
    pub ghost asked_for: { asked ≡ rules_asked bytes.now },
    pub ghost few_terminals: { length alphabet.now ≤ most_terminals },
    pub ghost few_asked: { asked ≤ most_asked },
}

// The bodies of a sheet: the alphabet follows the contents with a byte for each terminal, the rules follow the alphabet, and the automaton follows the rules to the
// end.
#[derive(Clone, Copy)]
pub struct Bodies<'a> {
    pub alphabet: &'a [u8],
    pub rules: &'a [u8],
    pub automaton: &'a [u8],
}

// Whether the bodies follow the contents in order, without gaps, to the end.
#[tactic(auto, unfolding(terms::specs::Check::joins))]
fn contents_join(sheet: &[u8]) -> bool
    requires { 12 ≤ length sheet.now }
    ensures { result ≡ joins sheet.now }
{
    let alphabet = word(sheet, 0);
    let rules = word(sheet, 4);
    let automaton = word(sheet, 8);
    alphabet == CONTENTS
        && rules == alphabet + word(sheet, 2)
        && automaton == rules + word(sheet, 6)
        && sheet.len() == automaton + word(sheet, 10)
}

// The bodies of a sheet whose contents join.
#[tactic(auto, using(crate::proofs::Bodies::bodies_lie))]
pub fn bodies_of<'a>(sheet: &'a [u8]) -> Bodies<'a>
    requires { (12 ≤ length sheet.now) × (joins sheet.now ≡ true) }
    ensures alphabet { result.alphabet.now ≡ alphabet_of sheet.now }
    ensures rules { result.rules.now ≡ body sheet.now 1 }
    ensures automaton { result.automaton.now ≡ automaton_of sheet.now }
{
    let rules = word(sheet, 4);
    let automaton = word(sheet, 8);
    Bodies {
        alphabet: &sheet[CONTENTS..rules],
        rules: &sheet[rules..automaton],
        automaton: &sheet[automaton..],
    }
}

// What is refused of a sheet, or its parts.
#[tactic(auto, using(terms::proofs::InTurn::in_turn), unfolding(terms::specs::Check::sheet_refusal))]
pub fn read_sheet<'a>(sheet: &'a [u8]) -> Result<Sheet<'a>, Refusal>
    ensures refusal { refusal_of result ≡ sheet_refusal sheet.now }
    ensures bytes { IfOk result (λ read. read.bytes.now ≡ sheet.now) }
{
    if sheet.len() < CONTENTS || LONGEST_SHEET < sheet.len() {
        return Err(Refusal::SheetLength);
    }
    if !contents_join(sheet) {
        return Err(Refusal::Contents);
    }
    let Bodies {
        alphabet,
        rules,
        automaton,
    } = bodies_of(sheet);
    check_alphabet(alphabet)?;
    let Rules { count, asked } = read_rules(alphabet, rules)?;
    check_automaton(alphabet, automaton)?;
    Ok(Sheet {
        bytes: sheet,
        alphabet,
        rules,
        automaton,
        count,
        asked,
    })
}
