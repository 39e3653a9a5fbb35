// Marks the sheet on standard input and prints one line: verdict, mask and size, or `refused` and the number.
#![tactic(auto)]

ghost use Rattle.std.specs.Io.{ReadsAtMost};

use mark_line::line::line_of;
use sheets::limits::LONGEST_SHEET;
use std::io;
use std::io::{Read, Write};

// Reads until the slice is full or the input ends, and answers how many bytes were read.
fn read_full(input: &mut impl Read, bytes: &mut [u8]) -> io::Result<usize>
    ensures { ReadsAtMost result bytes.new }
{
    let mut length = 0;
    // No `for`: a read may give fewer bytes than it is asked for, and the loop moves on by as many as came.
    while length < bytes.len() {
        let count = input.read(&mut bytes[length..])?;
        if count == 0 {
            return Ok(length);
        }
        length += count;
    }
    Ok(length)
}

fn main(rt: HostRuntime) -> io::Result<()> {
    // One byte more than the longest sheet: a longer input shows as too long, and no more of it is stored.
    let mut bytes = [0u8; LONGEST_SHEET + 1];
    let length = read_full(&mut rt.stdin(), &mut bytes)?;
    match line_of(&bytes[..length]) {
        Ok(line) => writeln!(rt.stdout(), "{line}"),
        Err(refusal) => writeln!(rt.stdout(), "{refusal}"),
    }
}
