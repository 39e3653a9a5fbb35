// Bytes: numbers of two bytes, the low byte first, and copies.
ghost use Rattle.std.specs.Prelude.{◌≡◌, ◌++◌, ◌+◌, ◌<◌, ◌≤◌, length, take, drop};
ghost use Rattle.terms.specs.Bytes.{word};

// The number whose low byte is at a place of the slice.
pub fn word(bytes: &[u8], at: usize) -> usize
    requires { at + 1 < length bytes.now }
    ensures { (result ≡ word bytes.now at) × (result < 65536) }
{
    usize::from(u16::from_le_bytes([bytes[at], bytes[at + 1]]))
}

// The bytes of `from` into `to`, at a place.
pub fn copy_at(from: &[u8], to: &mut [u8], at: usize)
    requires { at + length from.now ≤ length to.old }
    ensures { to.new ≡ take at to.old ++ (from.now ++ drop (at + length from.now) to.old) }
{
    to[at..at + from.len()].copy_from_slice(from);
}
