// Reading: outer reading, then what a general or a tunnelled message holds.
ghost use Rattle.std.specs.Prelude.{◌≡◌, Ok, ◌+◌, ◌≤◌, true, false, not, eqb, length};
ghost use Rattle.wire.specs.Bytes.{part, little};
ghost use Rattle.message.specs.Layout.{only, check_bytes, body_of, check_length};
ghost use Rattle.message.specs.Value.{bit};
ghost use Rattle.message.specs.Refusals.{bad_exchange};
ghost use Rattle.reader.specs.Reading.{read_of};
ghost use Rattle.reader.specs.Steps.{exchange_at, no_exchange, with_fields, finished, fields_of, exchange_of, tunnel_of};
ghost use Rattle.outer.specs.Steps.{begun_of};

use message::{Head, Message, Reason, Refusal, Taken, layout};
use wire::Number;

// What stands behind the key id: the exchange header and its fields, each 0 of a tunnelled message, and the
// length of the head. The flags of both kinds of message are told from the header, so that this byte waits while
// a message is received, and not each flag.
#[derive(Clone, Copy)]
struct Exchange {
    header: u8,
    kind: u8,
    exchange: u16,
    profile: u32,
    acknowledged: u32,
    length: usize,
}

// 10: F is zero, or a reserved bit of the exchange header is set.
fn bad_exchange(x: u8) -> bool
    ensures { result ≡ bad_exchange x }
{
    !(x / layout::F % 2 == 1)
        | (x / layout::EXCHANGE_RESERVED % 2 == 1)
        | (x / layout::EXCHANGE_RESERVED_HIGH % 8 != 0)
}

// The exchange fields that stand at a place, behind the exchange header `x`. The head ends at `front`.
#[tactic(auto, using(wire::proofs::Places::place_get, outer::proofs::Maybe::maybe_get, crate::proofs::Steps::exchange_at_lem))]
fn fields_at(bytes: &[u8], at: usize, x: u8, front: usize) -> Exchange
    requires { (x ≡ little (part bytes.now at 1)) × (at + 8 + only (bit x 1) 4 ≤ length bytes.now) }
    ensures { result ≡ exchange_at bytes.now at front }
{
    let kind_at = at + layout::KIND_AT;
    let exchange_at = at + layout::EXCHANGE_AT;
    let profile_at = at + layout::PROFILE_AT;
    let acknowledged_at = at + layout::ACKNOWLEDGED_AT;
    let acknowledged = message::only_of(x / layout::A % 2 == 1, layout::ACKNOWLEDGED);
    Exchange {
        header: x,
        kind: u8::get(&bytes[kind_at..kind_at + layout::KIND]),
        exchange: u16::get(&bytes[exchange_at..exchange_at + layout::EXCHANGE]),
        profile: u32::get(&bytes[profile_at..profile_at + layout::PROFILE]),
        acknowledged: u32::get(&bytes[acknowledged_at..acknowledged_at + acknowledged]),
        length: front,
    }
}

// Of a general message whose exchange header `x`, at a place, is good: 2 where A has no room before the
// check.
fn read_fields(m: Message, bytes: &[u8], at: usize, x: u8) -> Result<Exchange, Refusal>
    requires { (x ≡ little (part bytes.now at 1)) × (at ≡ body_of m) × (m.tunnelled ≡ false) × (body_of m + 8 + check_length m ≤ length bytes.now) }
    ensures { finished m result ≡ fields_of bytes.now m }
{
    if x / layout::A % 2 != 1 {
        return Ok(fields_at(bytes, at, x, at + layout::ACKNOWLEDGED_AT));
    }
    let front = at + layout::ACKNOWLEDGED_AT + layout::ACKNOWLEDGED;
    if bytes.len() < front + m.check_length() {
        return Err(Refusal::at(Reason::TooShort, bytes.len()));
    }
    Ok(fields_at(bytes, at, x, front))
}

// Of a general message, from its value up to the key id: 10, 11, then its fields.
fn read_exchange(bytes: &[u8], m: Message) -> Result<Exchange, Refusal>
    requires { (m.tunnelled ≡ false) × (body_of m + 8 + check_length m ≤ length bytes.now) }
    ensures { finished m result ≡ exchange_of bytes.now m }
{
    let at = m.body_at();
    let x = u8::get(&bytes[at..at + layout::EXCHANGE_HEADER]);
    if bad_exchange(x) {
        return Err(Refusal::at(Reason::Exchange, at));
    }
    if conditions::old_asks(m.version, x / layout::A % 2 == 1, x / layout::R % 2 == 1) {
        return Err(Refusal::at(Reason::OldAsks, at));
    }
    read_fields(m, bytes, at, x)
}

// Of a tunnelled message, from its value up to the key id: 12, 13, 27. It has no exchange fields.
fn read_tunnel(bytes: &[u8], m: Message) -> Result<Exchange, Refusal>
    requires { (m.tunnelled ≡ true) × (with_fields m (no_exchange 0) ≡ m) × (check_length m ≡ only (not (eqb m.encrypt 0)) check_bytes) × (body_of m + 2 + check_length m ≤ length bytes.now) }
    ensures { finished m result ≡ tunnel_of bytes.now m }
{
    let at = m.body_at();
    if bytes[at] != layout::TUNNEL_VERSION {
        return Err(Refusal::at(Reason::Tunnel, at));
    }
    let start = at + layout::PACKET_AT;
    if conditions::bad_packet(bytes[start]) {
        return Err(Refusal::at(Reason::Packet, start));
    }
    // As `check_length` says, by a question whose answer need not be kept: docs/DECISIONS.md, 106.
    let end = bytes.len() - message::only_of(m.encrypt != layout::PLAIN, layout::CHECK);
    if conditions::bad_packet_length(&bytes[start..end]) {
        return Err(Refusal::at(Reason::PacketLength, start));
    }
    Ok(Exchange {
        header: 0,
        kind: 0,
        exchange: 0,
        profile: 0,
        acknowledged: 0,
        length: start,
    })
}

// The rest of a message, by its kind, from its value up to the key id. Bytes and value stay two parameters here
// and above: a struct of both would be made for these functions alone, and each contract names the one and the other.
#[tactic(auto, using(crate::proofs::Readings::read_tunnelled, crate::proofs::Readings::read_general, crate::proofs::Readings::no_fields, crate::proofs::Readings::check_unless_plain, crate::proofs::Readings::tunnel_room, crate::proofs::Readings::exchange_room))]
fn read_rest(bytes: &[u8], m: Message) -> Result<Exchange, Refusal>
    requires { begun_of bytes.now ≡ Ok m }
    ensures { finished m result ≡ read_of bytes.now }
{
    if m.tunnelled {
        return read_tunnel(bytes, m);
    }
    read_exchange(bytes, m)
}

// A value up to the key id, with exchange fields.
#[tactic(auto, unfolding(crate::specs::Steps::with_fields))]
fn with_fields(m: Message, e: Exchange) -> Message
    ensures { result ≡ with_fields m e }
{
    Message {
        initiator: e.header / layout::I % 2 == 1,
        acknowledges: e.header / layout::A % 2 == 1,
        wants: e.header / layout::R % 2 == 1,
        kind: e.kind,
        exchange: e.exchange,
        profile: e.profile,
        acknowledged: e.acknowledged,
        ..m
    }
}

// The value of a message and its head, or the refusal with the byte at fault. Every length gets an answer.
#[tactic(auto, using(crate::proofs::Readings::read_refused))]
pub fn read(bytes: &[u8]) -> Result<Taken, Refusal>
    ensures { result ≡ read_of bytes.now }
{
    let m = outer::begin(bytes)?;
    let e = read_rest(bytes, m)?;
    let head = Head {
        flags: e.header % layout::ABOVE_FLAGS,
        length: e.length,
    };
    Ok(Taken {
        message: with_fields(m, e),
        head,
    })
}
