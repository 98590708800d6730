// Writing: the bytes of a value at the front of a buffer. A function that stores a part of them is lent
// that part of the buffer and no more.
ghost use Rattle.std.specs.Prelude.{◌≡◌, ◌+◌, ◌≤◌, cond, length};
ghost use Rattle.wire.specs.Bytes.{little_bytes};
ghost use Rattle.message.specs.Layout.{only, head_length};
ghost use Rattle.message.specs.Value.{header_of, exchange_header_of, exchange_bytes, head_bytes, bytes_of};
ghost use Rattle.message.specs.Answers.{buffer_after};
ghost use Rattle.judge.specs.Writing.{write_of};

use message::{Message, Refusal, layout, only_of};
use parts::Parts;
use wire::Number;

// The header of a value.
fn header_of(m: Message) -> u16
    requires { (m.version ≤ 2) × (m.encrypt ≤ 1) }
    ensures { result ≡ header_of m }
{
    u16::from(m.version) * layout::VERSION
        + u16::from(m.tunnelled) * layout::T
        + u16::from(m.sourced) * layout::S
        + u16::from(m.destined) * layout::D
        + u16::from(m.encrypt) * layout::ENCRYPT
}

// The exchange header of a value.
fn exchange_header_of(m: Message) -> u8
    ensures { result ≡ exchange_header_of m }
{
    layout::F
        + u8::from(m.initiator) * layout::I
        + u8::from(m.acknowledges) * layout::A
        + u8::from(m.wants) * layout::R
}

// What stands behind the address fields: of a tunnelled message the tunnel version, else exchange header,
// type, exchange id, profile id, acknowledged id.
fn store_body(out: &mut [u8], m: Message)
    requires { length out.old ≡ cond m.tunnelled 1 (8 + only m.acknowledges 4) }
    ensures { out.new ≡ cond m.tunnelled (little_bytes 1 1) (exchange_bytes m) }
{
    if m.tunnelled {
        layout::TUNNEL_VERSION.put(out);
        return;
    }
    let (header, rest) = out.split_at_mut(layout::EXCHANGE_HEADER);
    exchange_header_of(m).put(header);
    let (kind, rest) = rest.split_at_mut(layout::KIND);
    m.kind.put(kind);
    let (exchange, rest) = rest.split_at_mut(layout::EXCHANGE);
    m.exchange.put(exchange);
    let (profile, acknowledged) = rest.split_at_mut(layout::PROFILE);
    m.profile.put(profile);
    m.acknowledged.put(acknowledged);
}

// All that stands before the payload or the packet. A field that is absent takes no bytes. The body is stored first: by the
// order of the bytes a receive takes five instructions more, and eight bytes of stack.
pub(crate) fn store_head(out: &mut [u8], m: Message)
    requires { (length out.old ≡ head_length m) × (m.version ≤ 2) × (m.encrypt ≤ 1) }
    ensures { out.new ≡ head_bytes m }
{
    let (address, body) = out.split_at_mut(m.body_at());
    store_body(body, m);
    let (header, rest) = address.split_at_mut(layout::HEADER);
    header_of(m).put(header);
    let (id, rest) = rest.split_at_mut(layout::ID);
    m.id.put(id);
    let (source, rest) = rest.split_at_mut(only_of(m.sourced, layout::NODE));
    m.source.put(source);
    let (destination, key) = rest.split_at_mut(only_of(m.destined, layout::NODE));
    m.destination.put(destination);
    m.key.put(key);
}

// The bytes of a value at the front of a buffer, with its payload and check bytes; the buffer's other
// bytes stay as they were. Or the refusal, and all of the buffer as it was.
#[tactic(auto, using(crate::proofs::Stored::storable))]
pub fn write(m: Message, parts: Parts<'_>, out: &mut [u8]) -> Result<usize, Refusal>
    ensures { (result ≡ write_of m parts.entry.payload.now parts.entry.check.now (length out.old)) × (out.new ≡ buffer_after result (bytes_of m parts.entry.payload.now parts.entry.check.now) out.old) }
{
    let total = judge::would_write(m, parts, out.len())?;
    let (head, rest) = out.split_at_mut(m.head_length());
    store_head(head, m);
    let (payload, rest) = rest.split_at_mut(parts.payload.len());
    payload.copy_from_slice(parts.payload);
    let (check, _) = rest.split_at_mut(parts.check.len());
    check.copy_from_slice(parts.check);
    Ok(total)
}
