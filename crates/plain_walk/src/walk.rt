// The plain walk: the mask of each subtree of a tree in preorder, a node through its children.
ghost use Rattle.std.specs.Prelude.{◌≡◌, length};
ghost use Rattle.terms.specs.Answer.{answer, answer_of, refusal_of};
ghost use Rattle.terms.specs.Calls.{lent_after, walk_refusal, walk_mask, walk_masks};

use automata::check::check_automaton;
use checks::alphabet::check_alphabet;
use checks::tree::check_tree;
use subtree_masks::read::read_node;
use terms::refusals::Refusal;
use transition_links::links::LinkedAutomaton;

// The most nodes of a tree that is walked.
const MOST_WALKED: usize = 4096;

// What is refused of alphabet, automaton, tree and the length of the slice.
#[tactic(auto, using(terms::proofs::InTurn::in_turn), unfolding(terms::specs::Calls::walk_refusal))]
fn check_walk(alphabet: &[u8], automaton: &[u8], tree: &[u8], room: usize) -> Result<(), Refusal>
    ensures { refusal_of result ≡ walk_refusal alphabet.now automaton.now tree.now room }
{
    check_alphabet(alphabet)?;
    check_automaton(alphabet, automaton)?;
    check_tree(MOST_WALKED, alphabet, tree)?;
    if room < tree.len() {
        return Err(Refusal::WorkShort);
    }
    Ok(())
}

// Walks a tree: refused by 3 and 4 for the alphabet, 14 to 16 for the automaton, 22 and 23 for the tree, 19 for a slice that is shorter than the tree.
// The slice ends with the mask of the subtree at each position, its later bytes kept.
#[tactic(auto, using(terms::proofs::InTurn::in_turn))]
pub fn walk(alphabet: &[u8], automaton: &[u8], tree: &[u8], masks: &mut [u8]) -> Result<u8, Refusal>
    ensures answer { answer_of result ≡ answer (walk_refusal alphabet.now automaton.now tree.now (length masks.old)) (walk_mask alphabet.now automaton.now tree.now) }
    ensures masks { masks.new ≡ lent_after (walk_refusal alphabet.now automaton.now tree.now (length masks.old)) (walk_masks alphabet.now automaton.now tree.now) masks.old }
{
    check_walk(alphabet, automaton, tree, masks.len())?;
    let linked = LinkedAutomaton::new(alphabet, automaton);
    read_node(&linked, &tree, 0, masks);
    Ok(masks[0])
}
