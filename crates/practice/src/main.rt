// Prints the practice sheet of a number, or `refused` and the number of the refusal. Standard input has the first x, m and the automaton.
#![tactic(auto)]

mod request;

use crate::request::{read_bytes, read_number};
use practice_sheets::practice::practice;
use sheets::limits::LONGEST_SHEET;
use std::io;
use std::io::Write;

// Prints the sheet, or the number of the refusal.
fn print_sheet(output: &mut impl Write, first: u32, m: usize, automaton: &[u8]) -> io::Result<()> {
    let mut sheet = [0u8; LONGEST_SHEET];
    match practice(first, m, automaton, &mut sheet) {
        Ok(length) => output.write_all(&sheet[..length]),
        Err(refusal) => writeln!(output, "{refusal}"),
    }
}

fn main(rt: HostRuntime) -> io::Result<()> {
    let mut input = rt.stdin();
    let mut output = rt.stdout();
    let first = read_number(&mut input)?.map(u32::try_from);
    let m = read_number(&mut input)?;
    // More bytes than the longest automaton has, so that one that is too long shows as such; what fills the array cannot be read.
    let mut automaton = [0u8; LONGEST_SHEET];
    let length = read_bytes(&mut input, &mut automaton)?;
    if let (Some(Ok(first)), Some(m), Some(length)) = (first, m, length) {
        return print_sheet(&mut output, first, m, &automaton[..length]);
    }
    writeln!(output, "unreadable")
}
