// Runs the rows of calls on standard input, and prints what comes out of each on a line of its own. An empty line and a line that begins with `#` are
// headings, and are printed as they are. Any other line is a name without a colon, a colon, a space, a call, and the fields of the call.
#![tactic(auto)]

mod run;

use crate::run::run_row;
use rows::input::{echo, next_byte};
use rows::row::read_row;
use std::io;
use std::io::{Read, Write};

// The most lines that are read.
const MOST_LINES: usize = 65536;

// Room for the byte strings of a row.
const MOST_BYTES: usize = 32768;

// Runs what stands behind the colon.
fn run_behind(input: &mut impl Read, output: &mut impl Write) -> io::Result<()> {
    let mut bytes = [0u8; MOST_BYTES];
    let row = read_row(input, &mut bytes)?;
    write!(output, ": ")?;
    match row {
        Some(row) => run_row(output, row, &bytes),
        None => writeln!(output, "unreadable"),
    }
}

// Runs a line whose first byte was read.
fn run_line(input: &mut impl Read, output: &mut impl Write, first: u8) -> io::Result<()> {
    match first {
        b'\n' => writeln!(output),
        b'#' => {
            write!(output, "#")?;
            echo(input, output, b'\n')?;
            writeln!(output)
        }
        b':' => run_behind(input, output),
        _ => {
            output.write_all(&[first])?;
            if echo(input, output, b':')? {
                run_behind(input, output)
            } else {
                writeln!(output, ": unreadable")
            }
        }
    }
}

fn main(rt: HostRuntime) -> io::Result<()> {
    let mut input = rt.stdin();
    let mut output = rt.stdout();
    for _ in 0..MOST_LINES {
        let first = next_byte(&mut input)?;
        if first == 0 {
            return Ok(());
        }
        run_line(&mut input, &mut output, first)?;
    }
    Ok(())
}
