// The stream: a length of two bytes, low byte first, before each message.
#![tactic(auto)]

ghost use Rattle.std.specs.Prelude.{◌≡◌, ◌+◌, ◌≤◌, length};
ghost use Rattle.message.specs.Answers.{buffer_after};
ghost use Rattle.stream.specs.Stream.{unframe_of, framed_message, framed_rest, frame_bytes, frame_of};

use message::{Reason, Refusal, Unframed, layout};
use wire::Number;

// The length of the message at the front of a stream; or how many bytes are wanted: for the length
// field alone while it is not whole, then for the message. Any length is a frame.
#[tactic(auto, using(wire::proofs::Fronts::front_part), unfolding(crate::specs::Stream::unframe_of))]
pub fn unframe(stream: &[u8]) -> Unframed
    ensures { result ≡ unframe_of stream.now }
{
    if stream.len() < layout::FRAME {
        return Unframed::Incomplete(layout::FRAME - stream.len());
    }
    let whole = layout::FRAME + usize::from(u16::get(stream));
    if stream.len() < whole {
        return Unframed::Incomplete(whole - stream.len());
    }
    Unframed::Whole(whole - layout::FRAME)
}

// The message at the front of a stream, and what stands after it; both empty where it is incomplete.
#[tactic(auto, using(crate::proofs::Streams::whole_there), unfolding(crate::specs::Stream::framed_message, crate::specs::Stream::framed_rest))]
fn split_frame(stream: &[u8]) -> (&[u8], &[u8])
    ensures message { result.0.now ≡ framed_message stream.now }
    ensures rest { result.1.now ≡ framed_rest stream.now }
{
    match unframe(stream) {
        Unframed::Whole(length) => stream[layout::FRAME..].split_at(length),
        Unframed::Incomplete(_) => (&stream[..0], &stream[..0]),
    }
}

// The message at the front of a stream; empty where it is incomplete.
pub fn framed_message(stream: &[u8]) -> &[u8]
    ensures { result.now ≡ framed_message stream.now }
{
    split_frame(stream).0
}

// What stands after that message; empty where it is incomplete.
pub fn framed_rest(stream: &[u8]) -> &[u8]
    ensures { result.now ≡ framed_rest stream.now }
{
    split_frame(stream).1
}

// A message with its length before it at the front of a buffer; the buffer's other bytes stay as they
// were. Or the refusal, 1 or 19, and all of the buffer as it was. The message is not judged.
#[tactic(auto, using(wire::proofs::Fronts::placed_whole), unfolding(crate::specs::Stream::frame_bytes, crate::specs::Stream::frame_of, crate::specs::Stream::framing_order))]
pub fn frame(message: &[u8], out: &mut [u8]) -> Result<usize, Refusal>
    ensures { (result ≡ frame_of message.now (length out.old)) × (out.new ≡ buffer_after result (frame_bytes message.now) out.old) }
{
    if layout::LONGEST < message.len() {
        return Err(Reason::TooLong.into());
    }
    let total = layout::FRAME + message.len();
    if out.len() < total {
        return Err(Reason::NoRoom.into());
    }
    let (length, rest) = out.split_at_mut(layout::FRAME);
    let (body, _) = rest.split_at_mut(message.len());
    // There is no `From` to a narrower number; a message that is not too long has a length of two bytes.
    (message.len() as u16).put(length);
    body.copy_from_slice(message);
    Ok(total)
}
