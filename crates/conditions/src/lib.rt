// The conditions of the refusals that reading and writing share, one function each.
#![tactic(auto)]

ghost use Rattle.std.specs.Prelude.{◌≡◌, ◌+◌, ◌≤◌};
ghost use Rattle.message.specs.Order.{first, passed};
ghost use Rattle.message.specs.Refusals.{bad_version, old_tunnel, bad_encrypt, bad_key_type, bad_key, nobody, bad_source, bad_destination, old_asks, bad_packet, other_length, bad_packet_length, address_order};

use message::{Message, Reason, layout};
use wire::Number;

// 3
pub fn bad_version(version: u8) -> bool
    ensures { result ≡ bad_version version }
{
    !((version == layout::VERSION_1) | (version == layout::VERSION_2))
}

// 5
pub fn old_tunnel(version: u8, tunnelled: bool) -> bool
    ensures { result ≡ old_tunnel version tunnelled }
{
    tunnelled & (version == layout::VERSION_1)
}

// 6
pub fn bad_encrypt(encrypt: u8) -> bool
    ensures { result ≡ bad_encrypt encrypt }
{
    !((encrypt == layout::PLAIN) | (encrypt == layout::ENCRYPTED))
}

// A key id of a type other than 1 and 2.
pub fn bad_key_type(key: u16) -> bool
    ensures { result ≡ bad_key_type key }
{
    let kind = key / layout::KEY_TYPE % 16;
    !((kind == layout::FABRIC) | (kind == layout::SESSION))
}

// 7
fn bad_key(encrypt: u8, key: u16) -> bool
    ensures { result ≡ bad_key encrypt key }
{
    (encrypt == layout::ENCRYPTED) & bad_key_type(key)
}

// All zero or all ones: never the node of a sender.
pub fn is_nobody(node: u64) -> bool
    ensures { result ≡ nobody node }
{
    (node == layout::NODE_NONE) | (node == layout::NODE_ANY)
}

// 8
fn bad_source(sourced: bool, source: u64) -> bool
    ensures { result ≡ bad_source sourced source }
{
    sourced & is_nobody(source)
}

// 9
fn bad_destination(destined: bool, destination: u64) -> bool
    ensures { result ≡ bad_destination destined destination }
{
    destined & (destination == layout::NODE_NONE)
}

// The address fields: 7 to 9.
#[tactic(auto, unfolding(message::specs::Refusals::address_order))]
pub fn test_address(m: Message) -> Result<(), Reason>
    ensures { result ≡ passed (first (address_order m)) }
{
    if bad_key(m.encrypt, m.key) {
        return Err(Reason::Key);
    }
    if bad_source(m.sourced, m.source) {
        return Err(Reason::Source);
    }
    if bad_destination(m.destined, m.destination) {
        return Err(Reason::Destination);
    }
    Ok(())
}

// 11
pub fn old_asks(version: u8, acknowledges: bool, wants: bool) -> bool
    ensures { result ≡ old_asks version acknowledges wants }
{
    (version == layout::VERSION_1) & (acknowledges | wants)
}

// 13
pub fn bad_packet(first: u8) -> bool
    ensures { result ≡ bad_packet first }
{
    let family = first / layout::FAMILY % 16;
    !((family == layout::IPV4) | (family == layout::IPV6))
}

// Whether a packet is shorter than its header, or not as long as this says: the number in two bytes at a
// place, plus what it does not count.
fn has_other_length(packet: &[u8], header: usize, at: usize, uncounted: usize) -> bool
    requires { (at + 2 ≤ header) × (uncounted ≤ 40) }
    ensures { result ≡ other_length header at uncounted packet.now }
{
    if packet.len() < header {
        return true;
    }
    let given = wire::get_big16(&packet[at..at + layout::LENGTH_FIELD]);
    usize::from(given) + uncounted != packet.len()
}

// 27, of a packet that 13 lets pass. Any other counts as IPv6, and an empty one is too short.
#[tactic(auto, using(wire::proofs::Fronts::first_byte), unfolding(message::specs::Refusals::bad_packet_length))]
pub fn bad_packet_length(packet: &[u8]) -> bool
    ensures { result ≡ bad_packet_length packet.now }
{
    if u8::get(packet) / layout::FAMILY % 16 == layout::IPV4 {
        return has_other_length(
            packet,
            layout::IPV4_HEADER,
            layout::IPV4_LENGTH_AT,
            layout::IPV4_UNCOUNTED,
        );
    }
    has_other_length(
        packet,
        layout::IPV6_HEADER,
        layout::IPV6_LENGTH_AT,
        layout::IPV6_UNCOUNTED,
    )
}
