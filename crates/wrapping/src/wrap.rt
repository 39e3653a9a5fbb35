// Wrapping a plain tree into a sheet of one rule.
ghost use Rattle.std.specs.Prelude.{◌≡◌, ◌∷◌, ◌+◌, ◌≤◌, length, take};
ghost use Rattle.terms.specs.Answer.{answer, answer_of, refusal_of};
ghost use Rattle.terms.specs.Sheet.{wrapped};
ghost use Rattle.terms.specs.Calls.{lent_after, wrap_refusal};
ghost use Rattle.sheet_bytes.specs.Put.{Put};

use automata::check::check_automaton;
use checks::alphabet::check_alphabet;
use checks::limits::{CONTENTS, MOST_NODES};
use checks::tree::check_tree;
use sheet_bytes::write::write_sheet;
use terms::refusals::Refusal;

// How many bytes stand before the nodes of a rule: its rank, and the number of its nodes.
const BEFORE_NODES: usize = 2;

// What is refused of alphabet, tree, automaton and the length of the slice.
#[tactic(auto, using(terms::proofs::InTurn::in_turn), unfolding(terms::specs::Calls::wrap_refusal))]
fn check_wrap(alphabet: &[u8], tree: &[u8], automaton: &[u8], room: usize) -> Result<(), Refusal>
    ensures { refusal_of result ≡ wrap_refusal alphabet.now tree.now automaton.now room }
{
    check_alphabet(alphabet)?;
    check_tree(MOST_NODES, alphabet, tree)?;
    check_automaton(alphabet, automaton)?;
    if room < CONTENTS + alphabet.len() + (BEFORE_NODES + tree.len()) + automaton.len() {
        return Err(Refusal::SheetShort);
    }
    Ok(())
}

// A tree as the only rule of a sheet, of rank 0.
fn one_rule(tree: &[u8], rules: &mut [u8; BEFORE_NODES + MOST_NODES])
    requires { length tree.now ≤ 128 }
    ensures { take (2 + length tree.now) rules.new ≡ 0 ∷ length tree.now ∷ tree.now }
{
    rules[0] = 0;
    rules[1] = tree.len() as u8;
    rules[BEFORE_NODES..BEFORE_NODES + tree.len()].copy_from_slice(tree);
}

// The sheet of what passed the checks.
fn wrap_into(alphabet: &[u8], tree: &[u8], automaton: &[u8], sheet: &mut [u8]) -> usize
    requires { wrap_refusal alphabet.now tree.now automaton.now (length sheet.old) ≡ 0 }
    ensures { Put result sheet.new (wrapped alphabet.now tree.now automaton.now) sheet.old }
{
    let mut rules = [0; BEFORE_NODES + MOST_NODES];
    one_rule(tree, &mut rules);
    let end = BEFORE_NODES + tree.len();
    write_sheet(alphabet, &rules[..end], automaton, sheet)
}

// A sheet whose tree is the tree given, into a lent slice; the answer is its length.
#[tactic(auto, using(terms::proofs::InTurn::in_turn))]
pub fn wrap(
    alphabet: &[u8],
    tree: &[u8],
    automaton: &[u8],
    sheet: &mut [u8],
) -> Result<usize, Refusal>
    ensures result_value { answer_of result ≡ answer (wrap_refusal alphabet.now tree.now automaton.now (length sheet.old)) (length (wrapped alphabet.now tree.now automaton.now)) }
    ensures sheet_after { sheet.new ≡ lent_after (wrap_refusal alphabet.now tree.now automaton.now (length sheet.old)) (wrapped alphabet.now tree.now automaton.now) sheet.old }
{
    check_wrap(alphabet, tree, automaton, sheet.len())?;
    Ok(wrap_into(alphabet, tree, automaton, sheet))
}
