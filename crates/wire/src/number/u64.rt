// A node: eight bytes, high byte first. It is the number of eight bytes low byte first, turned.
ghost use Rattle.std.specs.Prelude.{◌≡◌};
ghost use Rattle.wire.specs.Bytes.{little, little_bytes, big, big_bytes, front, placed};
ghost use Rattle.wire.specs.Lengths.{length_big};

use super::Number;
use crate::front::{first, place};

// The first eight bytes, low byte first. Where the slice has fewer, it is 0. This and `put64` stand by themselves, since `one_get64` and
// `one_put64` are laws of their clauses.
fn get64(bytes: &[u8]) -> u64
    ensures { result ≡ little (front 8 bytes.now) }
{
    u64::from_le_bytes(first(bytes))
}

// Eight bytes, low byte first. Where the slice has fewer, all of it stays as it was.
fn put64(out: &mut [u8], x: u64)
    ensures { out.new ≡ placed (little_bytes 8 x) out.old }
{
    place(out, x.to_le_bytes());
}

impl Number for u64 {
    ghost SIZE = { 8 };

    ghost read = { big };

    ghost written = { big_bytes };

    const SIZE: usize = 8;

    fn get(bytes: &[u8]) -> u64 {
        get64(bytes).swap_bytes()
    }

    fn put(self, out: &mut [u8]) {
        put64(out, self.swap_bytes());
    }

    ghost length_written = { length_big };
}
