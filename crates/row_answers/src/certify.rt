// Certify, which is lent three slices more than the other calls.
use crate::answers::{States, Written, say};
use certificate::certify::{Answers, certify};
use rows::lend::{Element, MOST_BYTES, MOST_NUMBERS};
use rows::row::Row;
use rows::show::show;
use std::io;
use std::io::Write;

fn say_answers(output: &mut impl Write, answers: &Answers) -> io::Result<()> {
    say(output, answers.made.map(Written))?;
    write!(output, ", ")?;
    say(output, answers.evaluated.map(States))?;
    write!(output, ", ")?;
    say(output, answers.unfolded.map(Written))?;
    write!(output, ", ")?;
    say(output, answers.walked.map(States))
}

// The last three fields of the row are the lengths of the slices for the counts, the tree and its masks.
pub fn certify_into(
    output: &mut impl Write,
    row: &Row,
    sheet: &[u8],
    form: &mut [u8],
    relations: &mut [u64],
) -> io::Result<()> {
    let mut counts = [u64::FILLING; MOST_NUMBERS];
    let mut tree = [u8::FILLING; MOST_BYTES];
    let mut masks = [u8::FILLING; MOST_BYTES];
    let counts = &mut counts[..row.fields[5].number.min(MOST_NUMBERS)];
    let tree = &mut tree[..row.fields[6].number.min(MOST_BYTES)];
    let masks = &mut masks[..row.fields[7].number.min(MOST_BYTES)];
    say_answers(
        output,
        &certify(sheet, form, relations, counts, tree, masks),
    )?;
    show(output, "counts", counts)?;
    show(output, "tree", tree)?;
    show(output, "masks", masks)
}
