// The calls on a plain tree.
ghost use Rattle.std.specs.Prelude.{◌≡◌, length};
ghost use Rattle.terms.specs.Sheet.{wrapped};
ghost use Rattle.terms.specs.Calls.{lent_after, walk_refusal, walk_mask, walk_masks, wrap_refusal};
ghost use Rattle.capi.specs.Result.{result_after};

use crate::answers::hand_out;
use plain_walk::walk::walk;
use wrapping::wrap::wrap;

// The mask of the states that runs on a preorder tree end in.
#[unsafe(no_mangle)]
#[tactic(auto, using(crate::proofs::Answered::said))]
pub extern "C" fn ewf_walk(
    alphabet: &[u8],
    automaton: &[u8],
    tree: &[u8],
    masks: &mut [u8],
    mask: &mut u8,
) -> u8
    ensures refusal { result ≡ walk_refusal alphabet.now automaton.now tree.now (length masks.old) }
    ensures masks { masks.new ≡ lent_after (walk_refusal alphabet.now automaton.now tree.now (length masks.old)) (walk_masks alphabet.now automaton.now tree.now) masks.old }
    ensures mask { mask.new ≡ result_after (walk_refusal alphabet.now automaton.now tree.now (length masks.old)) (walk_mask alphabet.now automaton.now tree.now) mask.old }
{
    hand_out(walk(alphabet, automaton, tree, masks), mask)
}

// A sheet of one rule whose tree is the tree given, and its length.
#[unsafe(no_mangle)]
#[tactic(auto, using(crate::proofs::Answered::said))]
pub extern "C" fn ewf_wrap(
    alphabet: &[u8],
    tree: &[u8],
    automaton: &[u8],
    sheet: &mut [u8],
    written: &mut usize,
) -> u8
    ensures refusal { result ≡ wrap_refusal alphabet.now tree.now automaton.now (length sheet.old) }
    ensures sheet { sheet.new ≡ lent_after (wrap_refusal alphabet.now tree.now automaton.now (length sheet.old)) (wrapped alphabet.now tree.now automaton.now) sheet.old }
    ensures written { written.new ≡ result_after (wrap_refusal alphabet.now tree.now automaton.now (length sheet.old)) (length (wrapped alphabet.now tree.now automaton.now)) written.old }
{
    hand_out(wrap(alphabet, tree, automaton, sheet), written)
}
