// The two parts of a message that are not fields, as parts of the caller's bytes. Both are empty where
// the reading is a refusal, or is of other bytes and the parts do not fit in these.
#![tactic(auto)]

ghost use Rattle.std.specs.Prelude.{◌≡◌};
ghost use Rattle.parts.specs.Parts.{payload_of, check_of};

use message::Taken;

// The payload, or the packet of a tunnelled message; and the check, which is 20 bytes of an encrypted message
// and none of a plain one.
#[derive(Clone, Copy, Debug, PartialEq, Eq)]
pub struct Parts<'a> {
    pub payload: &'a [u8],
    pub check: &'a [u8],
}

// Both: the check is the last bytes, and the payload what stands between the head and it. A head that was not read of
// these bytes may be of any length. The check is taken off first, so that nothing wraps. Why it was refused may be told
// in any way: of a refusal nothing is read.
#[tactic(auto, unfolding(crate::specs::Parts::payload_of, crate::specs::Parts::check_of))]
pub fn split<E: Copy>(bytes: &[u8], reading: Result<Taken, E>) -> Parts<'_>
    ensures payload { result.payload.now ≡ payload_of bytes.now reading }
    ensures check { result.check.now ≡ check_of bytes.now reading }
{
    if let Ok(Taken { message, head }) = reading
        && let Some(end) = bytes.len().checked_sub(message.check_length())
        && let Some(payload) = bytes.get(head.length..end)
    {
        let check = &bytes[end..];
        return Parts { payload, check };
    }
    Parts {
        payload: &[],
        check: &[],
    }
}

// The payload, or the packet of a tunnelled message.
pub fn payload<E: Copy>(bytes: &[u8], reading: Result<Taken, E>) -> &[u8]
    ensures { result.now ≡ payload_of bytes.now reading }
{
    split(bytes, reading).payload
}

// The check: 20 bytes of an encrypted message, none of a plain one.
pub fn check<E: Copy>(bytes: &[u8], reading: Result<Taken, E>) -> &[u8]
    ensures { result.now ≡ check_of bytes.now reading }
{
    split(bytes, reading).check
}
