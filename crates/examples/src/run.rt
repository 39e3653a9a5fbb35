// Running a row that was read: its call is lent a slice of bytes and one of numbers, which are printed behind the answer.
ghost use Rattle.std.specs.Prelude.{◌<◌};

use adding::add::add_transition;
use blackboard::blackboard;
use counted_marking::mark::mark;
use evaluation::evaluate::evaluate;
use labelling::label::label;
use lending::room;
use making::make_form;
use mark_line::line::line_of;
use opening::read;
use plain_walk::walk::walk;
use practice_sheets::practice::practice;
use row_answers::answers::{
    Counted, Found, Read, Room, States, Written, say, say_marking, say_step,
};
use row_answers::certify::certify_into;
use row_answers::rules::{rule_number, say_rules};
use row_answers::tally::tally_of;
use rows::lend::{Element, MOST_BYTES, MOST_NUMBERS, hold};
use rows::names::Call;
use rows::row::{Field, MOST_FIELDS, Row};
use rows::show::show;
use sizing::size::size;
use std::io;
use std::io::Write;
use unfolding::unfold::unfold;
use wrapping::wrap::wrap;

// A row, and the slice that its byte strings stand in.
#[derive(Clone, Copy, Debug, PartialEq, Eq)]
struct Given<'a> {
    row: Row,
    strings: &'a [u8],
}

// A slice that a call is lent: its name, and the length that the row asks for.
#[derive(Clone, Copy, Debug, PartialEq, Eq)]
struct Lent {
    name: &'static str,
    length: usize,
}

impl<'a> Given<'a> {
    // The bytes of a field, none where they do not lie in the slice.
    fn string(&self, field: usize) -> &'a [u8]
        requires { field < 8 }
    {
        let Field { start, end, .. } = self.row.fields[field];
        self.strings.get(start..end).unwrap_or(&[])
    }

    // The number of each field.
    fn numbers(&self) -> [usize; MOST_FIELDS] {
        self.row.fields.map(|field| field.number)
    }

    // The slice of bytes that the call is lent.
    fn lent_bytes(&self) -> Option<Lent> {
        let n = self.numbers();
        let (name, length) = match self.row.call {
            Call::Make | Call::Certify => ("form", n[3]),
            Call::Blackboard => ("table", n[3]),
            Call::Mark => ("form", n[4]),
            Call::Unfold => ("tree", n[5]),
            Call::Walk => ("masks", n[5]),
            Call::Wrap | Call::Practice => ("sheet", n[5]),
            _ => return None,
        };
        Some(Lent { name, length })
    }

    // The slice of numbers that the call is lent.
    fn lent_numbers(&self) -> Option<Lent> {
        let n = self.numbers();
        let (name, length) = match self.row.call {
            Call::Certify => ("relations", n[4]),
            Call::Mark | Call::Evaluate => ("relations", n[5]),
            Call::Add => ("relations", n[7]),
            Call::Size | Call::Unfold => ("counts", n[4]),
            Call::Label => ("counts", n[5]),
            _ => return None,
        };
        Some(Lent { name, length })
    }
}

// The first x of a practice sheet, the largest number of 32 bits where the number is larger.
fn first_of(number: usize) -> u32 {
    u32::try_from(number).unwrap_or(u32::MAX)
}

// Makes the call on the fields of its row and what it is lent, and prints its answer.
fn answer(
    output: &mut impl Write,
    given: &Given,
    bytes: &mut [u8],
    numbers: &mut [u64],
) -> io::Result<()> {
    let a = given.string(2);
    let b = given.string(3);
    let c = given.string(4);
    let d = given.string(5);
    let n = given.numbers();
    match given.row.call {
        Call::Line => say(output, line_of(a)),
        Call::Room => say(output, room(a).map(Room)),
        Call::Blackboard => say(output, blackboard(a, bytes).map(States)),
        Call::Make => say(output, make_form(a, bytes).map(Written)),
        Call::Mark => say_marking(output, &mark(a, bytes, numbers, n[6], tally_of(b))),
        Call::Certify => certify_into(output, &given.row, a, bytes, numbers),
        Call::Rule => say(output, read(a, b, rule_number(n[4])).map(Read)),
        Call::Rules => say_rules(output, a, b),
        Call::Evaluate => say(output, evaluate(a, b, c, numbers).map(States)),
        Call::Add => say(output, add_transition(a, b, c, d, numbers).map(States)),
        Call::Size => say(output, size(a, b, numbers).map(Counted)),
        Call::Label => say(output, label(a, b, n[4] as u64, numbers).map(Found)),
        Call::Unfold => say(output, unfold(a, b, numbers, bytes).map(Written)),
        Call::Walk => say(output, walk(a, b, c, bytes).map(States)),
        Call::Wrap => say(output, wrap(a, b, c, bytes).map(Written)),
        Call::Practice => say(
            output,
            practice(first_of(n[3]), n[4], a, bytes).map(Written),
        ),
        Call::Accept => say_step(output, &tally_of(a).accept(n[3])),
        Call::Decline => say_step(output, &tally_of(a).decline(n[3])),
        Call::TurnAway => say_step(output, &tally_of(a).turn_away(n[3])),
    }
}

// Lends the call of a row what it asks for, the numbers of add holding at first those that the row gives, and ends the line.
pub fn run_row(output: &mut impl Write, row: Row, strings: &[u8]) -> io::Result<()> {
    let given = Given { row, strings };
    let mut bytes = [u8::FILLING; MOST_BYTES];
    let mut numbers = [u64::FILLING; MOST_NUMBERS];
    let lent_bytes = given.lent_bytes();
    let lent_numbers = given.lent_numbers();
    let room = lent_bytes.map_or(0, |lent| lent.length).min(MOST_BYTES);
    let count = lent_numbers.map_or(0, |lent| lent.length).min(MOST_NUMBERS);
    let bytes = &mut bytes[..room];
    let numbers = &mut numbers[..count];
    if row.call == Call::Add {
        hold(given.string(6), numbers);
    }
    answer(output, &given, bytes, numbers)?;
    if let Some(lent) = lent_bytes {
        show(output, lent.name, bytes)?;
    }
    if let Some(lent) = lent_numbers {
        show(output, lent.name, numbers)?;
    }
    writeln!(output)
}
