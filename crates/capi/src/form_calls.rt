// The calls on a form.
ghost use Rattle.std.specs.Prelude.{◌≡◌, length};
ghost use Rattle.terms.specs.Tree.{preorder};
ghost use Rattle.terms.specs.FormBytes.{form_tree};
ghost use Rattle.terms.specs.Count.{size_of, size_answer};
ghost use Rattle.terms.specs.Calls.{lent_after, evaluation_refusal, relations_of, form_mask, size_refusal, unfolding_refusal, label_refusal, label_at, counts_of};
ghost use Rattle.adding_terms.specs.Adding.{adding_refusal, added_relations, added_mask};
ghost use Rattle.capi.specs.Result.{result_after, size_number};

use crate::answers::hand_out;
use adding::add::add_transition;
use evaluation::evaluate::evaluate;
use labelling::label::label;
use sizing::size::size;
use unfolding::unfold::unfold;

// The mask of the states that runs on the form's tree end in.
#[unsafe(no_mangle)]
#[tactic(auto, using(crate::proofs::Answered::said))]
pub extern "C" fn ewf_evaluate(
    alphabet: &[u8],
    automaton: &[u8],
    form: &[u8],
    relations: &mut [u64],
    mask: &mut u8,
) -> u8
    ensures refusal { result ≡ evaluation_refusal alphabet.now automaton.now form.now (length relations.old) }
    ensures relations { relations.new ≡ lent_after (evaluation_refusal alphabet.now automaton.now form.now (length relations.old)) (relations_of alphabet.now automaton.now form.now) relations.old }
    ensures mask { mask.new ≡ result_after (evaluation_refusal alphabet.now automaton.now form.now (length relations.old)) (form_mask alphabet.now automaton.now form.now) mask.old }
{
    hand_out(evaluate(alphabet, automaton, form, relations), mask)
}

// The relations of an automaton carried over to one with a transition more, and the mask by them.
#[unsafe(no_mangle)]
#[tactic(auto, using(crate::proofs::Answered::said))]
pub extern "C" fn ewf_add_transition(
    alphabet: &[u8],
    form: &[u8],
    automaton: &[u8],
    transition: &[u8],
    relations: &mut [u64],
    mask: &mut u8,
) -> u8
    ensures refusal { result ≡ adding_refusal alphabet.now form.now automaton.now transition.now (length relations.old) }
    ensures relations { relations.new ≡ lent_after (adding_refusal alphabet.now form.now automaton.now transition.now (length relations.old)) (added_relations alphabet.now form.now automaton.now transition.now relations.old) relations.old }
    ensures mask { mask.new ≡ result_after (adding_refusal alphabet.now form.now automaton.now transition.now (length relations.old)) (added_mask alphabet.now form.now automaton.now transition.now relations.old) mask.old }
{
    hand_out(
        add_transition(alphabet, form, automaton, transition, relations),
        mask,
    )
}

// The form's tree in preorder, and how many nodes it has.
#[unsafe(no_mangle)]
#[tactic(auto, using(crate::proofs::Answered::said))]
pub extern "C" fn ewf_unfold(
    alphabet: &[u8],
    form: &[u8],
    counts: &mut [u64],
    tree: &mut [u8],
    nodes: &mut usize,
) -> u8
    ensures refusal { result ≡ unfolding_refusal alphabet.now form.now (length counts.old) (length tree.old) }
    ensures tree { tree.new ≡ lent_after (unfolding_refusal alphabet.now form.now (length counts.old) (length tree.old)) (preorder (form_tree alphabet.now form.now)) tree.old }
    ensures counts { counts.new ≡ lent_after (unfolding_refusal alphabet.now form.now (length counts.old) (length tree.old)) (counts_of alphabet.now form.now) counts.old }
    ensures nodes { nodes.new ≡ result_after (unfolding_refusal alphabet.now form.now (length counts.old) (length tree.old)) (size_of (form_tree alphabet.now form.now)) nodes.old }
{
    hand_out(unfold(alphabet, form, counts, tree), nodes)
}

// How many nodes the form's tree has; the largest number of 64 bits represents "over".
#[unsafe(no_mangle)]
#[tactic(auto, using(crate::proofs::Answered::said))]
pub extern "C" fn ewf_size(alphabet: &[u8], form: &[u8], counts: &mut [u64], nodes: &mut u64) -> u8
    ensures refusal { result ≡ size_refusal alphabet.now form.now (length counts.old) }
    ensures counts { counts.new ≡ lent_after (size_refusal alphabet.now form.now (length counts.old)) (counts_of alphabet.now form.now) counts.old }
    ensures nodes { nodes.new ≡ result_after (size_refusal alphabet.now form.now (length counts.old)) (size_number (size_answer (size_of (form_tree alphabet.now form.now)))) nodes.old }
{
    hand_out(size(alphabet, form, counts).map(u64::from), nodes)
}

// The terminal at a preorder position of the form's tree.
#[unsafe(no_mangle)]
#[tactic(auto, using(crate::proofs::Answered::said))]
pub extern "C" fn ewf_label(
    alphabet: &[u8],
    form: &[u8],
    position: u64,
    counts: &mut [u64],
    terminal: &mut u8,
) -> u8
    ensures refusal { result ≡ label_refusal alphabet.now form.now position (length counts.old) }
    ensures counts { counts.new ≡ lent_after (label_refusal alphabet.now form.now position (length counts.old)) (counts_of alphabet.now form.now) counts.old }
    ensures terminal { terminal.new ≡ result_after (label_refusal alphabet.now form.now position (length counts.old)) (label_at alphabet.now form.now position) terminal.old }
{
    let found = label(alphabet, form, position, counts).map(|found| found.0);
    hand_out(found, terminal)
}
