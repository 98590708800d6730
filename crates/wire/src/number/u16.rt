// Two bytes, low byte first.
ghost use Rattle.wire.specs.Bytes.{little, little_bytes};
ghost use Rattle.wire.specs.Lengths.{length_little};

use super::Number;
use crate::front::{first, place};

impl Number for u16 {
    ghost SIZE = { 2 };

    ghost read = { little };

    ghost written = { little_bytes };

    const SIZE: usize = 2;

    fn get(bytes: &[u8]) -> u16 {
        u16::from_le_bytes(first(bytes))
    }

    fn put(self, out: &mut [u8]) {
        place(out, self.to_le_bytes());
    }

    ghost length_written = { length_little };
}
