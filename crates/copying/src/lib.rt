// Copying the bytes of one lent slice to another.
#![tactic(auto)]

ghost use Rattle.std.specs.Prelude.{◌≡◌, length};

// The bytes one by one: `copy_from_slice` would need memmove here, and the library for C needs nothing but memcpy and memset (include/ewerflint.h).
pub fn copy(from: &[u8], to: &mut [u8])
    requires { length to.old ≡ length from.now }
    ensures { to.new ≡ from.now }
{
    for i in 0..from.len() {
        to[i] = from[i];
    }
}
