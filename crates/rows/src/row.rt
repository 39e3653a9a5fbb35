// A row as it is read behind the colon: a space, a call, and the fields of the call behind a space each.
ghost use Rattle.std.specs.Prelude.{◌≡◌, ◌+◌, ◌-◌, ◌*◌, ◌^◌, min};

use crate::input::{LONGEST, next_byte};
use crate::names::{Call, Name};
use std::io;
use std::io::Read;

// The most fields that a row may have: what stands before the space, the call, and those of the call.
pub const MOST_FIELDS: usize = 8;

// How many fields are counted before the count begins at 1 again.
const COUNTED: usize = 1000;

// A field of a row: where its bytes start and end, and the decimal number that it is.
#[derive(Clone, Copy, Debug, PartialEq, Eq)]
pub struct Field {
    pub start: usize,
    pub end: usize,
    pub number: usize,
}

// A row that was read: its call, and the fields that the call takes.
#[derive(Clone, Copy, Debug, PartialEq, Eq)]
pub struct Row {
    pub call: Call,
    pub fields: [Field; MOST_FIELDS],
}

// A piece of a row, of which a field has more than one where pluses stand between them.
#[derive(Clone, Copy, Debug, PartialEq, Eq)]
struct Piece {
    // Where its bytes start and end, nowhere if there is no room for them.
    start: Option<usize>,
    end: Option<usize>,
    // Whether the next byte has a digit already.
    half: bool,
    // The decimal number of its digits, and how often it is to stand there.
    number: usize,
    times: usize,
}

impl Piece {
    fn at(start: Option<usize>) -> Piece {
        Piece {
            start,
            end: start,
            half: false,
            number: 0,
            times: 1,
        }
    }

    // Adds a digit to the number and to the bytes, where it moves the digit before up.
    fn add_digit(&mut self, bytes: &mut [u8], digit: u8) {
        self.number = with_digit(self.number, digit);
        self.end = self.end.filter(|end| *end < bytes.len());
        if let Some(end) = self.end {
            bytes[end] = bytes[end] << 4 | digit;
            if self.half {
                self.end = Some(end + 1);
            }
        }
        self.half = !self.half;
    }

    // Writes the bytes of the piece as often as they are to stand there.
    fn repeat(&mut self, bytes: &mut [u8]) {
        if let (Some(start), Some(end)) = (self.start, self.end) {
            self.end = repeat(bytes, start, end, self.times);
        }
    }

    // What stands before a star says how often the piece is to stand there.
    fn end_times(&mut self) {
        let times = self.number;
        *self = Piece::at(self.start);
        self.times = times;
    }
}

// Writes the bytes between two places so often that they stand there so many times, once at least, and answers where they end: nowhere, unless there is room
// for a byte more.
fn repeat(bytes: &mut [u8], start: usize, end: usize, times: usize) -> Option<usize> {
    if end <= start {
        return Some(end);
    }
    let length = end - start;
    let stop = start.saturating_add(length.saturating_mul(times.max(1)));
    // Where there is no room for all of them, the bytes are written as far as there is: a star behind them goes back to the start, and a half byte there moves up
    // what stands in its place.
    for place in end..stop.min(bytes.len()) {
        bytes[place] = bytes[place - length];
    }
    if bytes.len() <= stop {
        return None;
    }
    Some(stop)
}

// The value of a hexadecimal digit, which is no small letter.
fn digit_of(byte: u8) -> Option<u8> {
    match byte {
        b'0'..=b'9' => Some(byte - b'0'),
        b'A'..=b'F' => Some(byte - b'A' + 10),
        _ => None,
    }
}

// A number with a digit behind it, the largest number where that is too large.
pub fn with_digit(number: usize, digit: u8) -> usize
    ensures { result ≡ min (10 * number + digit) (2 ^ 64 - 1) }
{
    number.saturating_mul(10).saturating_add(digit as usize)
}

// What was read of a row.
#[derive(Clone, Copy, Debug, PartialEq, Eq)]
struct Reading {
    // The name of the call. Whatever is no digit is taken for a letter of it, so that a wrong sign makes it no call.
    name: Name,
    // How many fields were read: what stands before the space, the call, and those of the call.
    count: usize,
    fields: [Field; MOST_FIELDS],
    // Where the field that is being read starts, and its last piece.
    start: usize,
    piece: Piece,
}

impl Reading {
    fn new() -> Reading {
        Reading {
            name: Name::empty(),
            count: 0,
            fields: [Field {
                start: 0,
                end: 0,
                number: 0,
            }; MOST_FIELDS],
            start: 0,
            piece: Piece::at(Some(0)),
        }
    }

    // A byte of a byte string that lacks a digit makes the row unreadable.
    fn end_piece(&mut self) {
        if self.piece.half && self.count < self.name.call().map_or(2, |call| call.first_number()) {
            self.name = Name::empty();
        }
        self.piece = Piece::at(self.piece.end);
    }

    // Where there was no room for the bytes, the row is unreadable whatever its fields are.
    fn end_field(&mut self) {
        let number = self.piece.number;
        self.end_piece();
        if let Some(end) = self.piece.end {
            self.fields[self.count % MOST_FIELDS] = Field {
                start: self.start,
                end,
                number,
            };
            self.start = end;
        }
        self.count = self.count % COUNTED + 1;
    }

    fn add(&mut self, bytes: &mut [u8], byte: u8) {
        if let Some(digit) = digit_of(byte) {
            return self.piece.add_digit(bytes, digit);
        }
        self.piece.repeat(bytes);
        match byte {
            0 | b'\n' | b' ' => self.end_field(),
            b'+' => self.end_piece(),
            b'*' => self.piece.end_times(),
            b'-' => {}
            letter => self.name.add(letter),
        }
    }

    // The row that was read, none where it is unreadable. What is no call has no fields: a row with none is taken for turning candidate 0 away, with an empty tally.
    fn row(self) -> Option<Row> {
        let (call, count) = match self.name.call() {
            Some(call) => (call, call.fields()),
            None => (Call::TurnAway, 0),
        };
        if self.count != count || self.piece.end.is_none() {
            return None;
        }
        Some(Row {
            call,
            fields: self.fields,
        })
    }
}

// Reads a row up to the end of its line, none where it is unreadable. Its byte strings go to the slice. A row that is too long to be read in one go is taken for
// one with no call and no fields.
pub fn read_row(input: &mut impl Read, bytes: &mut [u8]) -> io::Result<Option<Row>> {
    let mut reading = Reading::new();
    for _ in 0..LONGEST {
        let byte = next_byte(input)?;
        reading.add(bytes, byte);
        if byte < b' ' {
            return Ok(reading.row());
        }
    }
    Ok(Reading::new().row())
}
