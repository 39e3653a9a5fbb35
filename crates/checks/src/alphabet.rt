// The alphabet: the rank of each terminal, a byte each.
ghost use Rattle.std.specs.Prelude.{◌≡◌, leb};
ghost use Rattle.terms.specs.Answer.{refusal_of};
ghost use Rattle.terms.specs.Test.{all};
ghost use Rattle.terms.specs.Grammar.{terminal_rank};
ghost use Rattle.terms.specs.Check.{highest_rank, alphabet_refusal};

use crate::limits::{HIGHEST_RANK, MOST_TERMINALS};
use terms::Terminal;
use terms::refusals::Refusal;

// No rank is above the highest.
fn ranks_fit(alphabet: &[u8]) -> bool
    ensures { result ≡ all (λ rank. leb rank highest_rank) alphabet.now }
{
    alphabet.iter().all(|&rank| rank <= HIGHEST_RANK)
}

// What is refused of an alphabet: 3 for its length, 4 for a rank.
pub fn check_alphabet(alphabet: &[u8]) -> Result<(), Refusal>
    ensures { refusal_of result ≡ alphabet_refusal alphabet.now }
{
    if alphabet.len() < 1 || MOST_TERMINALS < alphabet.len() {
        return Err(Refusal::TerminalCount);
    }
    if !ranks_fit(alphabet) {
        return Err(Refusal::TerminalRank);
    }
    Ok(())
}

// The rank of a terminal, 0 where the alphabet has no such terminal.
pub fn rank_of(alphabet: &[u8], f: Terminal) -> u8
    ensures { result ≡ terminal_rank alphabet.now f.0 }
{
    alphabet.get(f.0 as usize).copied().unwrap_or(0)
}
