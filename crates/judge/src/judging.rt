// What writing would answer, for a value, its payload and check bytes, and the room that there is. No
// buffer is touched.
ghost use Rattle.std.specs.Prelude.{◌≡◌, ◌≤◌, length, ltb};
ghost use Rattle.message.specs.Order.{first, passed};
ghost use Rattle.message.specs.Layout.{longest};
ghost use Rattle.message.specs.Refusals.{too_long, empty_packet, wrong_packet, wrong_packet_length, stray_address, stray_exchange, stray, total};
ghost use Rattle.judge.specs.Writing.{write_of};
ghost use Rattle.judge.specs.Steps.{value_order, parts_order};

use message::{Message, Reason, Refusal, layout};
use parts::Parts;
use wire::Number;

// What the value alone decides.
#[tactic(auto, unfolding(crate::specs::Steps::value_order, message::specs::Refusals::address_order))]
fn test_value(m: Message) -> Result<(), Reason>
    ensures { result ≡ passed (first (value_order m)) }
{
    if conditions::bad_version(m.version) {
        return Err(Reason::Version);
    }
    if conditions::old_tunnel(m.version, m.tunnelled) {
        return Err(Reason::OldTunnel);
    }
    if conditions::bad_encrypt(m.encrypt) {
        return Err(Reason::Encrypt);
    }
    conditions::test_address(m)?;
    if conditions::old_asks(m.version, m.acknowledges, m.wants) {
        return Err(Reason::OldAsks);
    }
    Ok(())
}

// A packet is wanted and there is none.
fn empty_packet(m: Message, payload: &[u8]) -> bool
    ensures { result ≡ empty_packet m payload.now }
{
    m.tunnelled & payload.is_empty()
}

// A packet is wanted and its first byte is not one's.
#[tactic(auto, using(wire::proofs::Fronts::first_byte))]
fn wrong_packet(m: Message, payload: &[u8]) -> bool
    ensures { result ≡ wrong_packet m payload.now }
{
    m.tunnelled & conditions::bad_packet(u8::get(payload))
}

// A packet is wanted and it has not the length that its header gives.
fn wrong_packet_length(m: Message, payload: &[u8]) -> bool
    ensures { result ≡ wrong_packet_length m payload.now }
{
    m.tunnelled && conditions::bad_packet_length(payload)
}

// An absent address field is not zero.
fn stray_address(m: Message) -> bool
    ensures { result ≡ stray_address m }
{
    (!m.sourced & (m.source != 0))
        | (!m.destined & (m.destination != 0))
        | ((m.encrypt != layout::ENCRYPTED) & (m.key != 0))
}

// An absent exchange field is not zero.
fn stray_exchange(m: Message) -> bool
    ensures { result ≡ stray_exchange m }
{
    (!m.acknowledges & (m.acknowledged != 0))
        | (m.tunnelled
            & (m.initiator
                | m.acknowledges
                | m.wants
                | (m.kind != 0)
                | (m.exchange != 0)
                | (m.profile != 0)))
}

// 14
#[tactic(auto, unfolding(message::specs::Refusals::stray))]
fn is_stray(m: Message, check: &[u8]) -> bool
    ensures { result ≡ stray m check.now }
{
    stray_address(m) | stray_exchange(m) | (check.len() != m.check_length())
}

// 1. No sum is taken of the payload's length, which may be any number.
#[tactic(auto, using(crate::proofs::Long::room_left))]
fn is_long(m: Message, payload: &[u8]) -> bool
    ensures { result ≡ too_long (total m payload.now) }
{
    layout::LONGEST - m.head_length() - m.check_length() < payload.len()
}

// The length of a message whose payload is not longer than a message may be.
#[tactic(auto, unfolding(message::specs::Refusals::total))]
fn total_length(m: Message, payload: &[u8]) -> usize
    requires { length payload.now ≤ longest }
    ensures { result ≡ total m payload.now }
{
    m.head_length() + payload.len() + m.check_length()
}

// What the payload and the check bytes decide.
#[tactic(auto, unfolding(crate::specs::Steps::parts_order))]
fn test_parts(m: Message, parts: Parts<'_>) -> Result<(), Reason>
    ensures { result ≡ passed (first (parts_order m parts.entry.payload.now parts.entry.check.now)) }
{
    if empty_packet(m, parts.payload) {
        return Err(Reason::TooShort);
    }
    if wrong_packet(m, parts.payload) {
        return Err(Reason::Packet);
    }
    if wrong_packet_length(m, parts.payload) {
        return Err(Reason::PacketLength);
    }
    if is_stray(m, parts.check) {
        return Err(Reason::Stray);
    }
    if is_long(m, parts.payload) {
        return Err(Reason::TooLong);
    }
    Ok(())
}

// 19
fn lacks_room(room: usize, total: usize) -> bool
    ensures { result ≡ ltb room total }
{
    room < total
}

// What `write` would answer with a buffer of `room` bytes.
#[tactic(auto, using(crate::proofs::Steps::refused_value, crate::proofs::Steps::refused_parts, crate::proofs::Steps::judged, crate::proofs::Long::payload_short))]
pub fn would_write(m: Message, parts: Parts<'_>, room: usize) -> Result<usize, Refusal>
    ensures { result ≡ write_of m parts.entry.payload.now parts.entry.check.now room }
{
    test_value(m)?;
    test_parts(m, parts)?;
    let total = total_length(m, parts.payload);
    if lacks_room(room, total) {
        return Err(Reason::NoRoom.into());
    }
    Ok(total)
}
