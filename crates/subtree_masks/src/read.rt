// Reading a tree in preorder: a node through its children, and children each as a node.
ghost use Rattle.std.specs.Prelude.{◌≡◌, ◌≤◌, ◌<◌, length, take};
ghost use Rattle.terms.specs.Tree.{count};
ghost use Rattle.terms.specs.Calls.{walk_refusal};
ghost use Rattle.subtree_masks.specs.Readers.{Noted, trees_from, end_of, masks_from};

use checks::limits::HIGHEST_RANK;
use terms::Terminal;
use transition_links::links::LinkedAutomaton;
use transitions::step::step_closed;

// Reads the node at `at` through its children, notes its mask, and answers where its subtree ends. The tree has passed its check, so the children are there.
// Children stand behind their node, so a node leaves fewer bytes to its children than it has itself, and the calls end.
// The tree is handed on as a reference to its slice, one word: a slice itself is two, which each level would copy.
#[cycle(read_children_read_node)]
pub fn read_node(linked: &LinkedAutomaton, tree: &&[u8], at: usize, masks: &mut [u8]) -> usize
    requires { (walk_refusal linked.now.alphabet.now linked.now.automaton.now tree.now.now (length masks.old) ≡ 0) × (at < length tree.now.now) }
    ensures end { result ≡ end_of linked.now.alphabet.now tree.now.now at 1 }
    ensures noted { Noted linked.now.alphabet.now linked.now.automaton.now tree.now.now at result masks.old masks.new }
{
    let terminal = Terminal(tree[at]);
    let rank = linked.alphabet[terminal.0 as usize] as usize;
    let mut sets = [0u8; HIGHEST_RANK as usize];
    let end = read_children(linked, tree, at + 1, rank, masks, &mut sets);
    masks[at] = step_closed(linked, terminal, &sets);
    end
}

// Reads the children from `at` on, each as a node, puts their masks into the sets, and answers where the last one ends.
#[cycle(read_children_read_node)]
fn read_children(
    linked: &LinkedAutomaton,
    tree: &&[u8],
    at: usize,
    children: usize,
    masks: &mut [u8],
    sets: &mut [u8; HIGHEST_RANK as usize],
) -> usize
    requires { (walk_refusal linked.now.alphabet.now linked.now.automaton.now tree.now.now (length masks.old) ≡ 0) × (children ≤ 4) × (children ≤ count (trees_from linked.now.alphabet.now tree.now.now at)) × (length sets.old ≡ 4) }
    ensures end { result ≡ end_of linked.now.alphabet.now tree.now.now at children }
    ensures noted { Noted linked.now.alphabet.now linked.now.automaton.now tree.now.now at result masks.old masks.new }
    ensures sets { (length sets.new ≡ 4) × (take children sets.new ≡ masks_from linked.now.alphabet.now linked.now.automaton.now tree.now.now at children) }
{
    let mut end = at;
    for j in 0..children {
        let child = end;
        end = read_node(linked, tree, child, masks);
        sets[j] = masks[child];
    }
    end
}
