// The length that a packet gives of itself: the one number of two bytes that stands high byte first.
ghost use Rattle.std.specs.Prelude.{◌≡◌};
ghost use Rattle.wire.specs.Bytes.{big, front};

use crate::front::first;

// The first two bytes, high byte first. Where the slice has fewer, it is 0.
#[tactic(auto, using(crate::proofs::Library::got_high))]
pub fn get_big16(bytes: &[u8]) -> u16
    ensures { result ≡ big (front 2 bytes.now) }
{
    u16::from_be_bytes(first(bytes))
}
