// A tally as a row gives it, and as it is printed.
use std::io;
use std::io::Write;
use tallies::tally::{COUNTS, Tally, WAYS};

// The tally of a row, in which each count has four bytes, the low byte first. Bytes that are missing are 0.
pub fn tally_of(bytes: &[u8]) -> Tally {
    let mut counts = [0u32; COUNTS];
    for (i, count) in counts.iter_mut().enumerate() {
        let byte = |k: usize| bytes.get(4 * i + k).copied().unwrap_or(0);
        *count = u32::from_le_bytes([byte(0), byte(1), byte(2), byte(3)]);
    }
    Tally { counts }
}

// The counts of those candidates that have one above 0, by their numbers.
pub fn say_tally(output: &mut impl Write, tally: &Tally) -> io::Result<()> {
    write!(output, "tally")?;
    for (candidate, line) in tally.counts.as_chunks::<WAYS>().0.iter().enumerate() {
        let [accepted, declined, turned_away] = *line;
        if accepted | declined | turned_away != 0 {
            write!(output, " {candidate} ({accepted} {declined} {turned_away})")?;
        }
    }
    Ok(())
}
