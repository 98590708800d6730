// Messages: reading and writing.
ghost use Rattle.std.specs.Prelude.{◌≡◌, length};
ghost use Rattle.message.specs.Value.{bytes_of};
ghost use Rattle.message.specs.Answers.{number_in, buffer_after};
ghost use Rattle.reader.specs.Reading.{read_of};
ghost use Rattle.values.specs.Values.{value_from};
ghost use Rattle.places.specs.Answers.{offset_after, count_after};
ghost use Rattle.gateway_format.specs.Messages.{read_after, write_from};

use message::Reason;
use parts::Parts;
use places::{FIELDS, Fields};
use wire::Number;

// The fields of a message, and where its payload and its check stand in the bytes. Whatever reading
// refuses, with the byte at fault in `offset`, which otherwise stays as it was.
pub fn kabizarle_read(bytes: &[u8], fields: &mut [u64; FIELDS], offset: &mut u64) -> u32
    ensures result { result ≡ number_in (read_of bytes.now) }
    ensures fields { fields.new ≡ read_after (read_of bytes.now) (length bytes.now) fields.old }
    ensures offset { offset.new ≡ offset_after (read_of bytes.now) offset.old }
{
    match reader::read(bytes) {
        Ok(taken) => {
            let read = Fields {
                taken,
                header: u16::get(bytes),
                size: bytes.len(),
                verdict: places::NONE,
                reply: 0,
            };
            read.store(fields);
            places::NO_REFUSAL
        }
        Err(refusal) => places::refused(refusal, offset),
    }
}

// Writes the message that the places say at the front of a buffer, and says its length; only the first
// ten places are looked at. A number that its field cannot hold is refused with 14 before anything
// else; then whatever writing refuses.
#[tactic(auto, using(crate::proofs::Answered::fit, crate::proofs::Answered::unfit, crate::proofs::Answered::is_value))]
pub fn kabizarle_write(
    fields: &[u64; FIELDS],
    payload: &[u8],
    check: &[u8],
    out: &mut [u8],
    written: &mut u64,
) -> u32
    ensures result { result ≡ number_in (write_from fields.now payload.now check.now (length out.old)) }
    ensures buffer { out.new ≡ buffer_after (write_from fields.now payload.now check.now (length out.old)) (bytes_of (value_from fields.now) payload.now check.now) out.old }
    ensures written { written.new ≡ count_after (write_from fields.now payload.now check.now (length out.old)) written.old }
{
    let answer = match values::load(fields) {
        Some(m) => writer::write(m, Parts { payload, check }, out),
        None => Err(Reason::Stray.into()),
    };
    places::settle(answer, written)
}
