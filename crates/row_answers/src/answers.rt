// The answers of the calls, as they are printed.
use crate::tally::say_tally;
use counted_marking::answer::Marking;
use form_bytes::rule::FormRule;
use lending::Asked;
use marking::answer::{Mark, Verdict};
use sizing::answer::Size;
use std::io::Write;
use std::{fmt, io};
use tallies::tally::Step;
use terms::Terminal;
use terms::refusals::Refusal;

// Prints what a call answers, or its refusal.
pub fn say<T: fmt::Display + Drop>(
    output: &mut impl Write,
    answer: Result<T, Refusal>,
) -> io::Result<()> {
    match answer {
        Ok(value) => write!(output, "{value}"),
        Err(refusal) => write!(output, "{refusal}"),
    }
}

// The bytes that are asked for, and then the numbers.
#[derive(Clone, Copy, Debug, PartialEq, Eq)]
pub struct Room(pub Asked);

impl fmt::Display for Room {
    fn fmt<W: fmt::Write>(&self, f: &mut fmt::Formatter<W>) -> fmt::Result {
        write!(f, "asked {} {}", self.0.bytes, self.0.numbers)
    }
}

// How many bytes were written.
#[derive(Clone, Copy, Debug, PartialEq, Eq)]
pub struct Written(pub usize);

impl fmt::Display for Written {
    fn fmt<W: fmt::Write>(&self, f: &mut fmt::Formatter<W>) -> fmt::Result {
        write!(f, "written {}", self.0)
    }
}

// A mask of states.
#[derive(Clone, Copy, Debug, PartialEq, Eq)]
pub struct States(pub u8);

impl fmt::Display for States {
    fn fmt<W: fmt::Write>(&self, f: &mut fmt::Formatter<W>) -> fmt::Result {
        write!(f, "mask {}", self.0)
    }
}

// How many nodes a tree has.
#[derive(Clone, Copy, Debug, PartialEq, Eq)]
pub struct Counted(pub Size);

impl fmt::Display for Counted {
    fn fmt<W: fmt::Write>(&self, f: &mut fmt::Formatter<W>) -> fmt::Result {
        match self.0 {
            Size::Exact(nodes) => write!(f, "size {nodes}"),
            Size::Over => write!(f, "over"),
        }
    }
}

// The terminal at a position.
#[derive(Clone, Copy)]
pub struct Found(pub Terminal);

impl fmt::Display for Found {
    fn fmt<W: fmt::Write>(&self, f: &mut fmt::Formatter<W>) -> fmt::Result {
        let terminal = self.0.0;
        write!(f, "terminal {terminal}")
    }
}

// A rule that was read: kind, terminal, hole and four slots.
#[derive(Clone, Copy)]
pub struct Read(pub FormRule);

impl fmt::Display for Read {
    fn fmt<W: fmt::Write>(&self, f: &mut fmt::Formatter<W>) -> fmt::Result {
        let rule = self.0;
        write!(f, "rule {} {} {}", rule.kind, rule.terminal.0, rule.hole)?;
        write!(f, " {} {}", rule.slot0.0, rule.slot1.0)?;
        write!(f, " {} {}", rule.slot2.0, rule.slot3.0)
    }
}

// The verdict on a sheet with its mask.
#[derive(Clone, Copy, Debug, PartialEq, Eq)]
struct Marked(Mark);

impl fmt::Display for Marked {
    fn fmt<W: fmt::Write>(&self, f: &mut fmt::Formatter<W>) -> fmt::Result {
        let mask = self.0.mask;
        match self.0.verdict {
            Verdict::Accepted => write!(f, "accepted {mask}"),
            Verdict::Declined => write!(f, "declined {mask}"),
        }
    }
}

// The refusal of a step, where there is one, and the tally that it leaves.
pub fn say_step(output: &mut impl Write, step: &Step) -> io::Result<()> {
    if let Err(refusal) = step.answer {
        write!(output, "{refusal}, ")?;
    }
    say_tally(output, &step.tally)
}

// The answer of a marking, and the tally that it leaves.
pub fn say_marking(output: &mut impl Write, marking: &Marking) -> io::Result<()> {
    say(output, marking.mark.map(Marked))?;
    write!(output, ", ")?;
    say_tally(output, &marking.tally)
}
