// Writing a sheet: the table of contents, then the three bodies.
ghost use Rattle.std.specs.Prelude.{◌≡◌, ◌+◌, ◌<◌, ◌≤◌, length};
ghost use Rattle.terms.specs.Bytes.{word_bytes};
ghost use Rattle.terms.specs.Sheet.{contents_of, sheet_of};
ghost use Rattle.sheet_bytes.specs.Put.{Put};

use checks::limits::CONTENTS;
use copying::copy;

// A number of the table of contents, the low byte first.
fn word_bytes(number: usize) -> [u8; 2]
    requires { number < 65536 }
    ensures { result ≡ word_bytes number }
{
    (number as u16).to_le_bytes()
}

// The table of contents of three bodies, by their lengths.
fn contents_of(alphabet: usize, rules: usize, automaton: usize) -> [u8; CONTENTS]
    requires { 12 + alphabet + rules + automaton < 65536 }
    ensures { result ≡ contents_of alphabet rules automaton }
{
    let mut contents = [0; CONTENTS];
    contents[..2].copy_from_slice(&word_bytes(CONTENTS));
    contents[2..4].copy_from_slice(&word_bytes(alphabet));
    contents[4..6].copy_from_slice(&word_bytes(CONTENTS + alphabet));
    contents[6..8].copy_from_slice(&word_bytes(rules));
    contents[8..10].copy_from_slice(&word_bytes(CONTENTS + alphabet + rules));
    contents[10..].copy_from_slice(&word_bytes(automaton));
    contents
}

// A sheet of three bodies, whose length is the answer; later bytes are kept.
pub fn write_sheet(alphabet: &[u8], rules: &[u8], automaton: &[u8], sheet: &mut [u8]) -> usize
    requires automaton_in_bounds { 12 + (length alphabet.now + (length rules.now + length automaton.now)) ≤ length sheet.old }
    requires automaton_bound { 12 + (length alphabet.now + (length rules.now + length automaton.now)) < 65536 }
    ensures { Put result sheet.new (sheet_of alphabet.now rules.now automaton.now) sheet.old }
{
    let rules_at = CONTENTS + alphabet.len();
    let automaton_at = rules_at + rules.len();
    let end = automaton_at + automaton.len();
    sheet[..CONTENTS].copy_from_slice(&contents_of(alphabet.len(), rules.len(), automaton.len()));
    copy(alphabet, &mut sheet[CONTENTS..rules_at]);
    copy(rules, &mut sheet[rules_at..automaton_at]);
    copy(automaton, &mut sheet[automaton_at..end]);
    end
}
