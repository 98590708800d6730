// Every limit, length and bit of the format, by name. A bit is given by its weight.

// The longest message.
pub const LONGEST: usize = 1232;

// The lengths of the fields.
pub const HEADER: usize = 2;

pub const ID: usize = 4;

pub const NODE: usize = 8;

pub const KEY: usize = 2;

pub const EXCHANGE_HEADER: usize = 1;

pub const KIND: usize = 1;

pub const EXCHANGE: usize = 2;

pub const PROFILE: usize = 4;

pub const ACKNOWLEDGED: usize = 4;

pub const TUNNEL: usize = 1;

pub const CHECK: usize = 20;

pub const FRAME: usize = 2;

// Where the fields that are always present stand, and the first that need not be.
pub const HEADER_AT: usize = 0;

pub const ID_AT: usize = HEADER_AT + HEADER;

pub const SOURCE_AT: usize = ID_AT + ID;

// The exchange fields, counted from the exchange header; the packet, from the tunnel version.
pub const KIND_AT: usize = EXCHANGE_HEADER;

pub const EXCHANGE_AT: usize = KIND_AT + KIND;

pub const PROFILE_AT: usize = EXCHANGE_AT + EXCHANGE;

pub const ACKNOWLEDGED_AT: usize = PROFILE_AT + PROFILE;

pub const PACKET_AT: usize = TUNNEL;

// The header: version in bits 15 to 12, T, S, D, encrypt type in bits 7 to 4; bits 11 and 3 to 0 are
// reserved.
pub const VERSION: u16 = 4096;

pub const RESERVED: u16 = 2048;

pub const T: u16 = 1024;

pub const S: u16 = 512;

pub const D: u16 = 256;

pub const ENCRYPT: u16 = 16;

pub const RESERVED_LOW: u16 = 16;

// The exchange header: I, A, R, a reserved bit, F, three reserved bits.
pub const I: u8 = 1;

pub const A: u8 = 2;

pub const R: u8 = 4;

// One more than the sum of I, A and R.
pub const ABOVE_FLAGS: u8 = 8;

pub const EXCHANGE_RESERVED: u8 = 8;

pub const F: u8 = 16;

pub const EXCHANGE_RESERVED_HIGH: u8 = 32;

// The values that are legal.
pub const VERSION_1: u8 = 1;

pub const VERSION_2: u8 = 2;

pub const PLAIN: u8 = 0;

pub const ENCRYPTED: u8 = 1;

pub const TUNNEL_VERSION: u8 = 1;

// The key type is bits 15 to 12 of a key id: fabric or session.
pub const KEY_TYPE: u16 = 4096;

pub const FABRIC: u16 = 1;

pub const SESSION: u16 = 2;

// A packet's family is the upper half of its first byte.
pub const FAMILY: u8 = 16;

pub const IPV4: u8 = 4;

pub const IPV6: u8 = 6;

// A packet's header: how long it is at least, where its length field stands, and what this does not
// count. The field has two bytes.
pub const IPV4_HEADER: usize = 20;

pub const IPV4_LENGTH_AT: usize = 2;

pub const IPV4_UNCOUNTED: usize = 0;

pub const IPV6_HEADER: usize = 40;

pub const IPV6_LENGTH_AT: usize = 4;

pub const IPV6_UNCOUNTED: usize = IPV6_HEADER;

pub const LENGTH_FIELD: usize = 2;

// The nodes that are nobody's.
pub const NODE_NONE: u64 = 0;

pub const NODE_ANY: u64 = 0xffff_ffff_ffff_ffff;
