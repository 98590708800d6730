// The value of a message: what its bytes say, with zero in every absent field.
ghost use Rattle.std.specs.Prelude.{◌≡◌, ◌≤◌};
ghost use Rattle.message.specs.Layout.{only, body_at, body_of, check_length, head_length};

use crate::layout;

// Whether a field is present is told by the flags alone, never by the field being zero: by `sourced`, `destined`, `encrypt` and
// `acknowledges`, each beside its field, and of the exchange fields by `tunnelled`. They make no `Option`, since `write` refuses
// with 14 a field that is absent and not zero (`stray_address`, `stray_exchange`), and C's arrays hold it so. Version and encrypt
// type are numbers and no enums, since `write` refuses all others with 3 and 6 (`bad_version`, `bad_encrypt`). The order is that in
// memory: `id` and `source` lie where a refusal has its reason and its offset, and are as wide, so an answer, which is a value or
// a refusal, stays in registers.
#[derive(Clone, Copy, Debug, PartialEq, Eq)]
pub struct Message {
    pub id: u32,
    // 1 or 2.
    pub version: u8,
    // T: an IP packet in place of the exchange fields and the payload.
    pub tunnelled: bool,
    // S: the source is present.
    pub sourced: bool,
    // D: the destination is present.
    pub destined: bool,
    // EUI[0] is the most significant byte.
    pub source: u64,
    pub destination: u64,
    // 0 plain, 1 encrypted: with a key id and check bytes.
    pub encrypt: u8,
    // I: sent by the one who began the exchange.
    pub initiator: bool,
    // A: the acknowledged id is present.
    pub acknowledges: bool,
    // R: an acknowledgement is wanted.
    pub wants: bool,
    // Key type in bits 15 to 12, key number below.
    pub key: u16,
    pub exchange: u16,
    // The message type, within its profile.
    pub kind: u8,
    pub profile: u32,
    pub acknowledged: u32,
}

// n where a field is present, else 0.
pub fn only_of(present: bool, n: usize) -> usize
    ensures { (result ≡ only present n) × (result ≤ n) }
{
    if present { n } else { 0 }
}

// Where the exchange header or the tunnel version stands.
pub fn body_at(sourced: bool, destined: bool, encrypted: bool) -> usize
    ensures { (result ≡ body_at sourced destined encrypted) × (result ≤ 24) }
{
    layout::SOURCE_AT
        + only_of(sourced, layout::NODE)
        + only_of(destined, layout::NODE)
        + only_of(encrypted, layout::KEY)
}

impl Message {
    // Where the exchange header or the tunnel version stands.
    pub fn body_at(self) -> usize
        ensures { (result ≡ body_of self) × (result ≤ 24) }
    {
        body_at(
            self.sourced,
            self.destined,
            self.encrypt == layout::ENCRYPTED,
        )
    }

    // The length of the check: 0 of a plain message.
    pub fn check_length(self) -> usize
        ensures { (result ≡ check_length self) × (result ≤ 20) }
    {
        only_of(self.encrypt == layout::ENCRYPTED, layout::CHECK)
    }

    // The length of all that stands before the payload or the packet.
    pub fn head_length(self) -> usize
        ensures { (result ≡ head_length self) × (result ≤ 36) }
    {
        let body = self.body_at();
        if self.tunnelled {
            return body + layout::TUNNEL;
        }
        body + layout::ACKNOWLEDGED_AT + only_of(self.acknowledges, layout::ACKNOWLEDGED)
    }
}
