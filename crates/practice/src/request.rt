// What is asked for on standard input: the first x and m in decimal, and the bytes of the automaton in hexadecimal, with spaces or line ends between them.
ghost use Rattle.std.specs.Prelude.{◌<◌, length, IfSome, IfOk};

use rows::input::{LONGEST, next_byte};
use rows::row::with_digit;
use std::io;
use std::io::Read;

// The next byte that is no space; a line end counts as a space. 0 represents the end of the input, and a byte 0 ends it too. None where too many spaces stand
// there.
fn next_sign(input: &mut impl Read) -> io::Result<Option<u8>> {
    for _ in 0..LONGEST {
        let byte = next_byte(input)?;
        if byte == 0 || byte > b' ' {
            return Ok(Some(byte));
        }
    }
    Ok(None)
}

// A decimal number and the space behind it, the largest number where it is larger; none where something else stands there.
pub fn read_number(input: &mut impl Read) -> io::Result<Option<usize>> {
    let Some(mut byte) = next_sign(input)? else {
        return Ok(None);
    };
    let mut number = None;
    for _ in 0..LONGEST {
        let Some(digit) = (byte as char).to_digit(10) else {
            return Ok(number.filter(|_| byte <= b' '));
        };
        number = Some(with_digit(number.unwrap_or(0), digit as u8));
        byte = next_byte(input)?;
    }
    Ok(None)
}

// The bytes up to the end of the input, and how many they are. None where they cannot be read: a digit is missing or is none, or no room is left behind them.
pub fn read_bytes(input: &mut impl Read, bytes: &mut [u8]) -> io::Result<Option<usize>>
    ensures { IfOk result (λ read. IfSome read (λ n. n < length bytes.new)) }
{
    for (i, byte) in bytes.iter_mut().enumerate() {
        let Some(high) = next_sign(input)? else {
            // The byte behind too many spaces is read too, as it is behind any sign that is no digit.
            next_byte(input)?;
            return Ok(None);
        };
        if high == 0 {
            return Ok(Some(i));
        }
        let low = next_byte(input)?;
        let (Some(high), Some(low)) = ((high as char).to_digit(16), (low as char).to_digit(16))
        else {
            return Ok(None);
        };
        *byte = (high << 4 | low) as u8;
    }
    Ok(None)
}
