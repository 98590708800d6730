// The functions of `gateway_format` for callers in C, each under its own name and with the same clauses. They are built apart from
// `gateway`, so that the path of a received message is compiled by itself.
#![tactic(auto)]

ghost use Rattle.std.specs.Prelude.{◌≡◌, length};
ghost use Rattle.message.specs.Value.{bytes_of};
ghost use Rattle.message.specs.Answers.{number_in, buffer_after};
ghost use Rattle.outer.specs.Outer.{outer_of};
ghost use Rattle.reader.specs.Reading.{read_of};
ghost use Rattle.values.specs.Values.{value_from};
ghost use Rattle.places.specs.Answers.{offset_after, count_after};
ghost use Rattle.stream.specs.Stream.{unframe_of, frame_bytes, frame_of};
ghost use Rattle.gateway_format.specs.Messages.{part_after, read_after, write_from};
ghost use Rattle.gateway_format.specs.Streams.{frame_places};

use places::{FIELDS, FRAME_PLACES, PART_PLACES};

// Where the protected part of a message starts and how long it is.
#[unsafe(no_mangle)]
pub extern "C" fn kabizarle_read_outer(
    bytes: &[u8],
    part: &mut [u64; PART_PLACES],
    offset: &mut u64,
) -> u32
    ensures result { result ≡ number_in (outer_of bytes.now) }
    ensures part { part.new ≡ part_after (outer_of bytes.now) part.old }
    ensures offset { offset.new ≡ offset_after (outer_of bytes.now) offset.old }
{
    gateway_format::kabizarle_read_outer(bytes, part, offset)
}

// The fields of a message, and where its payload and its check stand in the bytes.
#[unsafe(no_mangle)]
pub extern "C" fn kabizarle_read(bytes: &[u8], fields: &mut [u64; FIELDS], offset: &mut u64) -> u32
    ensures result { result ≡ number_in (read_of bytes.now) }
    ensures fields { fields.new ≡ read_after (read_of bytes.now) (length bytes.now) fields.old }
    ensures offset { offset.new ≡ offset_after (read_of bytes.now) offset.old }
{
    gateway_format::kabizarle_read(bytes, fields, offset)
}

// Writes the message that the places say at the front of a buffer, and says its length.
#[unsafe(no_mangle)]
pub extern "C" fn kabizarle_write(
    fields: &[u64; FIELDS],
    payload: &[u8],
    check: &[u8],
    out: &mut [u8],
    written: &mut u64,
) -> u32
    ensures result { result ≡ number_in (write_from fields.now payload.now check.now (length out.old)) }
    ensures buffer { out.new ≡ buffer_after (write_from fields.now payload.now check.now (length out.old)) (bytes_of (value_from fields.now) payload.now check.now) out.old }
    ensures written { written.new ≡ count_after (write_from fields.now payload.now check.now (length out.old)) written.old }
{
    gateway_format::kabizarle_write(fields, payload, check, out, written)
}

// Where the message at the front of a stream stands, and what follows it; or how many bytes are still
// wanted.
#[unsafe(no_mangle)]
pub extern "C" fn kabizarle_unframe(stream: &[u8], frame: &mut [u64; FRAME_PLACES]) -> u32
    ensures result { result ≡ 0 }
    ensures frame { frame.new ≡ frame_places (unframe_of stream.now) (length stream.now) }
{
    gateway_format::kabizarle_unframe(stream, frame)
}

// Writes a message with its length before it at the front of a buffer, and says how many bytes that is.
#[unsafe(no_mangle)]
pub extern "C" fn kabizarle_frame(message: &[u8], out: &mut [u8], written: &mut u64) -> u32
    ensures result { result ≡ number_in (frame_of message.now (length out.old)) }
    ensures buffer { out.new ≡ buffer_after (frame_of message.now (length out.old)) (frame_bytes message.now) out.old }
    ensures written { written.new ≡ count_after (frame_of message.now (length out.old)) written.old }
{
    gateway_format::kabizarle_frame(message, out, written)
}
