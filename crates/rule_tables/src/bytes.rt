// The bytes of a table, written from the lanes of a relation.
ghost use Rattle.std.specs.Prelude.{◌≤◌, length};
ghost use Rattle.rule_tables.specs.Bytes.{LanesWritten};

// Writes the first lanes of a relation, a byte for each; later bytes are kept.
pub fn write_lanes(bytes: &mut [u8], relation: u64, lanes: usize)
    requires { (lanes ≤ 8) × (lanes ≤ length bytes.old) }
    ensures { LanesWritten relation lanes bytes.old bytes.new }
{
    bytes[..lanes].copy_from_slice(&relation.to_le_bytes()[..lanes]);
}
