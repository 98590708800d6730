// The value that the places of an array say, where each holds a number that its field can hold.
#![tactic(auto)]

ghost use Rattle.std.specs.Prelude.{◌≡◌};
ghost use Rattle.values.specs.Values.{clean_header, load_of};

use message::Message;
use places::FIELDS;

// One more than the greatest sum of flags.
const ABOVE_FLAGS: u64 = 8;

// The bits of a header that no field has: bit 11 by its weight, and those below this weight.
const RESERVED: u64 = 2048;

const RESERVED_LOW: u64 = 16;

// How many versions and encrypt types a header can hold.
const KINDS: u64 = 16;

// Whether a number is a header with no bit set that no field has.
fn clean_header(header: u64) -> bool
    ensures { result ≡ clean_header header }
{
    u16::try_from(header).is_ok() & !((header / RESERVED % 2 == 1) | (header % RESERVED_LOW != 0))
}

// The value that the first ten places say; none where one of them holds a number that its field cannot hold.
#[tactic(auto, unfolding(crate::specs::Values::fits, crate::specs::Values::value_from, crate::specs::Values::load_of))]
pub fn load(fields: &[u64; FIELDS]) -> Option<Message>
    ensures { result ≡ load_of fields.now }
{
    let header = fields[places::HEADER];
    let flags = fields[places::FLAGS];
    if !clean_header(header) | (ABOVE_FLAGS <= flags) {
        return None;
    }
    // The two casts lose nothing, since a remainder by 16 stands before each; `From` does not narrow.
    Some(Message {
        version: (header / places::VERSION % KINDS) as u8,
        tunnelled: header / places::TUNNELLED % 2 == 1,
        sourced: header / places::SOURCED % 2 == 1,
        destined: header / places::DESTINED % 2 == 1,
        encrypt: (header / places::ENCRYPTED % KINDS) as u8,
        id: u32::try_from(fields[places::ID]).ok()?,
        source: fields[places::SOURCE],
        destination: fields[places::DESTINATION],
        key: u16::try_from(fields[places::KEY]).ok()?,
        initiator: flags / places::INITIATOR % 2 == 1,
        acknowledges: flags / places::ACKNOWLEDGES % 2 == 1,
        wants: flags / places::WANTS % 2 == 1,
        kind: u8::try_from(fields[places::KIND]).ok()?,
        exchange: u16::try_from(fields[places::EXCHANGE]).ok()?,
        profile: u32::try_from(fields[places::PROFILE]).ok()?,
        acknowledged: u32::try_from(fields[places::ACKNOWLEDGED]).ok()?,
    })
}
