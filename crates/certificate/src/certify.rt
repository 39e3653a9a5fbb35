// Form making, evaluation, unfolding and the plain walk in turn, over one sheet.
ghost use Rattle.std.specs.Prelude.{length};
ghost use Rattle.terms.specs.Answer.{answer_of};
ghost use Rattle.terms.specs.Private.Within.{Within};
ghost use Rattle.certificate.specs.Certify.{slices, Walked, Ran, CallsMade, Certified};

use evaluation::evaluate::evaluate;
use making::make_form;
use plain_walk::walk::walk;
use sheets::sheet::bodies_of;
use terms::refusals::Refusal;
use unfolding::unfold::unfold;

// What the four calls answer.
#[derive(Clone, Copy, Debug, PartialEq, Eq)]
pub struct Answers {
    pub made: Result<usize, Refusal>,
    pub evaluated: Result<u8, Refusal>,
    pub unfolded: Result<usize, Refusal>,
    pub walked: Result<u8, Refusal>,
}

// The walk over the nodes that unfolding wrote. Where it wrote none there is nothing to walk over, and its refusal is handed on.
fn walk_unfolded(
    alphabet: &[u8],
    automaton: &[u8],
    unfolded: Result<usize, Refusal>,
    tree: &[u8],
    masks: &mut [u8],
) -> Result<u8, Refusal>
    requires { Within (answer_of unfolded) (length tree.now) }
    ensures { Walked alphabet.now automaton.now (answer_of unfolded) tree.now (answer_of result) masks.new masks.old }
{
    let nodes = unfolded?;
    walk(alphabet, automaton, &tree[..nodes], masks)
}

// The calls on a form that was made: evaluation, unfolding, and the walk over what was unfolded.
fn run(
    alphabet: &[u8],
    automaton: &[u8],
    form: &[u8],
    relations: &mut [u64],
    counts: &mut [u64],
    tree: &mut [u8],
    masks: &mut [u8],
) -> Answers
    ensures { Ran alphabet.now automaton.now form.now result (slices relations.old counts.old tree.old masks.old) (slices relations.new counts.new tree.new masks.new) }
{
    let made = Ok(form.len());
    let evaluated = evaluate(alphabet, automaton, form, relations);
    let unfolded = unfold(alphabet, form, counts, tree);
    let walked = walk_unfolded(alphabet, automaton, unfolded, tree, masks);
    Answers {
        made,
        evaluated,
        unfolded,
        walked,
    }
}

// The four calls in turn. Where form making is refused there is no form for the others, and its refusal is handed on.
pub fn certify(
    sheet: &[u8],
    form: &mut [u8],
    relations: &mut [u64],
    counts: &mut [u64],
    tree: &mut [u8],
    masks: &mut [u8],
) -> Answers
    ensures calls { CallsMade sheet.now result form.old (slices relations.old counts.old tree.old masks.old) form.new (slices relations.new counts.new tree.new masks.new) }
    ensures demand { Certified sheet.now result form.old (slices relations.old counts.old tree.old masks.old) form.new (slices relations.new counts.new tree.new masks.new) }
{
    match make_form(sheet, form) {
        Err(refusal) => Answers {
            made: Err(refusal),
            evaluated: Err(refusal),
            unfolded: Err(refusal),
            walked: Err(refusal),
        },
        Ok(length) => {
            let bodies = bodies_of(sheet);
            run(
                bodies.alphabet,
                bodies.automaton,
                &form[..length],
                relations,
                counts,
                tree,
                masks,
            )
        }
    }
}
