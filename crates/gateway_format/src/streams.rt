// Streams: finding a message in one, and putting a message into one.
ghost use Rattle.std.specs.Prelude.{◌≡◌, length};
ghost use Rattle.message.specs.Answers.{number_in, buffer_after};
ghost use Rattle.stream.specs.Stream.{unframe_of, frame_bytes, frame_of};
ghost use Rattle.places.specs.Answers.{count_after};
ghost use Rattle.gateway_format.specs.Streams.{frame_places};

use message::Unframed;
use places::FRAME_PLACES;

// Where the message at the front of a stream stands, and what follows it; or how many bytes are still
// wanted. Never refuses.
#[tactic(auto, using(stream::proofs::Streams::whole_there))]
pub fn kabizarle_unframe(stream: &[u8], frame: &mut [u64; FRAME_PLACES]) -> u32
    ensures result { result ≡ 0 }
    ensures frame { frame.new ≡ frame_places (unframe_of stream.now) (length stream.now) }
{
    *frame = [0; FRAME_PLACES];
    // A `usize` has no `From` to `u64`.
    match stream::unframe(stream) {
        Unframed::Whole(len) => {
            let rest = places::FRAME_BYTES + len;
            frame[places::FRAME_START] = places::FRAME_BYTES as u64;
            frame[places::FRAME_LENGTH] = len as u64;
            frame[places::REST_START] = rest as u64;
            frame[places::REST_LENGTH] = (stream.len() - rest) as u64;
        }
        Unframed::Incomplete(wanted) => frame[places::FRAME_WANTED] = wanted as u64,
    }
    places::NO_REFUSAL
}

// Writes a message with its length before it at the front of a buffer, and says how many bytes that is.
// Refusals 1 and 19; the message is not judged.
pub fn kabizarle_frame(message: &[u8], out: &mut [u8], written: &mut u64) -> u32
    ensures result { result ≡ number_in (frame_of message.now (length out.old)) }
    ensures buffer { out.new ≡ buffer_after (frame_of message.now (length out.old)) (frame_bytes message.now) out.old }
    ensures written { written.new ≡ count_after (frame_of message.now (length out.old)) written.old }
{
    let answer = stream::frame(message, out);
    places::settle(answer, written)
}
