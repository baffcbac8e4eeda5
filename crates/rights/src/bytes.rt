// Sets of rights as a file has them: two bytes each, low byte first (document 02, C-21).
ghost use Rattle.std.specs.Prelude.{◌≡◌, ◌+◌, ◌*◌, ◌/◌, ◌%◌, ◌≤◌, ◌<◌, length, set};
ghost use Rattle.rights.specs.Bytes.{set_bytes, byte_values, set_in, sets_in, bytes_of};

use crate::Set;

// Bytes of a set.
pub const SIZE: usize = 2;

// Set number c, of which a byte past the end reads as 0.
fn set_at(bytes: &[u8], c: usize) -> Set
    requires { set_bytes * c < 65536 }
    ensures { result ≡ set_in bytes.now c }
{
    let low = bytes.get(SIZE * c).copied().unwrap_or(0);
    let high = bytes.get(SIZE * c + 1).copied().unwrap_or(0);
    Set::from_le_bytes([low, high])
}

// All sets, read from the bytes.
pub fn read_sets(bytes: &[u8], sets: &mut [Set])
    requires { set_bytes * length sets.old ≤ 65536 }
    ensures { sets.new ≡ sets_in (length sets.old) bytes.now }
{
    for c in 0..sets.len() {
        sets[c] = set_at(bytes, c);
    }
}

fn put_set(bytes: &mut [u8], c: usize, x: Set)
    requires { set_bytes * c + 1 < length bytes.old }
    ensures { bytes.new ≡ set (set bytes.old (set_bytes * c) (x % byte_values)) (set_bytes * c + 1) (x / byte_values) }
{
    let at = SIZE * c;
    [bytes[at], bytes[at + 1]] = x.to_le_bytes();
}

// All sets, written into the bytes.
pub fn write_sets(sets: &[Set], bytes: &mut [u8])
    requires { length bytes.old ≡ set_bytes * length sets.now }
    ensures { bytes.new ≡ bytes_of sets.now }
{
    for c in 0..sets.len() {
        put_set(bytes, c, sets[c]);
    }
}
