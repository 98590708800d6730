// Outer reading: refusals 1 to 9, which need no protected byte.
ghost use Rattle.std.specs.Prelude.{◌≡◌, ◌≤◌, length};
ghost use Rattle.message.specs.Order.{first, passed};
ghost use Rattle.message.specs.Value.{bit, body_by, address_of};
ghost use Rattle.message.specs.Refusals.{reserved};
ghost use Rattle.outer.specs.Outer.{outer_of};
ghost use Rattle.outer.specs.Steps.{header_order, fixed_at, field_at, begun_of};

use message::{Message, Reason, Refusal, layout};
use wire::Number;

// Encrypt type 1 as the header holds it. By a cast, since `From` makes no const.
const ENCRYPTED: u16 = layout::ENCRYPTED as u16;

// 4: a reserved bit of the header.
fn is_reserved(h: u16) -> bool
    ensures { result ≡ reserved h }
{
    (h / layout::RESERVED % 2 == 1) | (h % layout::RESERVED_LOW != 0)
}

// The header alone: 3 to 6.
#[tactic(auto, unfolding(crate::specs::Steps::header_order))]
fn test_header(h: u16) -> Result<(), Reason>
    ensures { result ≡ passed (first (header_order h)) }
{
    // Of two bytes there is no `From` to one: here and below a cast of four bits loses none.
    let version = (h / layout::VERSION % 16) as u8;
    if conditions::bad_version(version) {
        return Err(Reason::Version);
    }
    if is_reserved(h) {
        return Err(Reason::Reserved);
    }
    if conditions::old_tunnel(version, h / layout::T % 2 == 1) {
        return Err(Reason::OldTunnel);
    }
    if conditions::bad_encrypt((h / layout::ENCRYPT % 16) as u8) {
        return Err(Reason::Encrypt);
    }
    Ok(())
}

// The length of the fixed part: with one byte of a tunnelled packet, and with the check.
fn fixed_length(h: u16) -> usize
    ensures { (result ≡ fixed_at h) × (result ≤ 52) }
{
    let encrypted = h / layout::ENCRYPT % 16 == ENCRYPTED;
    let body = message::body_at(h / layout::S % 2 == 1, h / layout::D % 2 == 1, encrypted);
    let check = message::only_of(encrypted, layout::CHECK);
    if h / layout::T % 2 == 1 {
        return body + layout::PACKET_AT + 1 + check;
    }
    body + layout::ACKNOWLEDGED_AT + check
}

// The value up to the key id.
fn address(bytes: &[u8], h: u16) -> Message
    requires { body_by h ≤ length bytes.now }
    ensures { result ≡ address_of bytes.now h }
{
    let sourced = h / layout::S % 2 == 1;
    let destined = h / layout::D % 2 == 1;
    let encrypted = h / layout::ENCRYPT % 16 == ENCRYPTED;
    let destination_at = layout::SOURCE_AT + message::only_of(sourced, layout::NODE);
    let key_at = destination_at + message::only_of(destined, layout::NODE);
    let body_at = key_at + message::only_of(encrypted, layout::KEY);
    Message {
        version: (h / layout::VERSION % 16) as u8,
        tunnelled: h / layout::T % 2 == 1,
        sourced,
        destined,
        encrypt: (h / layout::ENCRYPT % 16) as u8,
        id: u32::get(&bytes[layout::ID_AT..layout::ID_AT + layout::ID]),
        source: u64::get(&bytes[layout::SOURCE_AT..destination_at]),
        destination: u64::get(&bytes[destination_at..key_at]),
        key: u16::get(&bytes[key_at..body_at]),
        initiator: false,
        acknowledges: false,
        wants: false,
        kind: 0,
        exchange: 0,
        profile: 0,
        acknowledged: 0,
    }
}

// Where the field stands that a refusal by the address fields is about: the source first; the destination
// behind it; the key id behind both, as far as they are present.
fn field_at(reason: Reason, h: u16) -> usize
    ensures { result ≡ field_at reason (bit h 9) (bit h 8) }
{
    let sourced = h / layout::S % 2 == 1;
    match reason {
        Reason::Source => layout::SOURCE_AT,
        Reason::Key => message::body_at(sourced, h / layout::D % 2 == 1, false),
        _ => message::body_at(sourced, false, false),
    }
}

// Refusals 1 to 9, else the value up to the key id, its exchange fields zero: the length, the header, the length
// that the header demands, the address fields.
#[tactic(auto, using(crate::proofs::Beginning::begun_long, crate::proofs::Beginning::begun_short, crate::proofs::Beginning::begun_header, crate::proofs::Beginning::begun_fixed, crate::proofs::Beginning::begun_whole))]
pub fn begin(bytes: &[u8]) -> Result<Message, Refusal>
    ensures { result ≡ begun_of bytes.now }
{
    if layout::LONGEST < bytes.len() {
        return Err(Refusal::at(Reason::TooLong, layout::LONGEST));
    }
    if bytes.len() < layout::HEADER {
        return Err(Refusal::at(Reason::TooShort, bytes.len()));
    }
    let h = u16::get(&bytes[layout::HEADER_AT..layout::HEADER_AT + layout::HEADER]);
    test_header(h)?;
    if bytes.len() < fixed_length(h) {
        return Err(Refusal::at(Reason::TooShort, bytes.len()));
    }
    let m = address(bytes, h);
    if let Err(reason) = conditions::test_address(m) {
        return Err(Refusal::at(reason, field_at(reason, h)));
    }
    Ok(m)
}

// Where the protected part, all after the key id, starts and how long it is: of a plain message at
// the end, and empty. Or the refusal, 1 to 9, with the byte at fault.
#[tactic(auto, using(crate::proofs::Answers::outer_encrypted, crate::proofs::Answers::outer_refused, crate::proofs::Answers::outer_room))]
pub fn read_outer(bytes: &[u8]) -> Result<(usize, usize), Refusal>
    ensures { result ≡ outer_of bytes.now }
{
    let m = begin(bytes)?;
    if m.encrypt == layout::ENCRYPTED {
        let start = m.body_at();
        return Ok((start, bytes.len() - start));
    }
    Ok((bytes.len(), 0))
}
