// What calls are lent: slices that are filled beforehand, so that it shows what a call writes.

// The longest slices that are lent. The bytes are as many as the longest form has: 5 + 32 + 12 · 2,048.
pub const MOST_BYTES: usize = 24613;

pub const MOST_NUMBERS: usize = 4096;

// An element of a slice that is lent.
pub trait Element: Copy + PartialEq + Into<u64> {
    // What the slice is filled with.
    const FILLING: Self;
    // The fewest hexadecimal digits that an element is printed with.
    const DIGITS: usize;
}

impl Element for u8 {
    const FILLING: u8 = 0xA5;

    const DIGITS: usize = 2;
}

impl Element for u64 {
    const FILLING: u64 = 0xA5A5_A5A5_A5A5_A5A5;

    const DIGITS: usize = 1;
}

// Puts the numbers that stand whole in the bytes, the low byte first, into the slice, as many as it has room for.
pub fn hold(bytes: &[u8], numbers: &mut [u64]) {
    for (number, eight) in numbers.iter_mut().zip(bytes.as_chunks::<8>().0) {
        *number = u64::from_le_bytes(*eight);
    }
}
