// Standard input.
use std::io;
use std::io::{Read, Write};

// The longest part of a line that is read in one go.
pub const LONGEST: usize = 65536;

// The next byte, 0 where the input has ended: a byte 0 ends a row and the input as its end does, so that the two need not be told apart.
pub fn next_byte(input: &mut impl Read) -> io::Result<u8> {
    input.bytes().next().unwrap_or(Ok(0))
}

// Prints what is left of a line up to a byte or to the line's end, and answers whether that byte stands there.
pub fn echo(input: &mut impl Read, output: &mut impl Write, stop: u8) -> io::Result<bool> {
    for _ in 0..LONGEST {
        let byte = next_byte(input)?;
        if byte == stop || byte < b' ' {
            return Ok(byte == stop);
        }
        output.write_all(&[byte])?;
    }
    Ok(false)
}
