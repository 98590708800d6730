// Every size, place and bit of the boundary to callers in other languages, by name, and the fields of a
// message in their places. A place is an index into a lent array: C has no other form for them, and each is a number of
// its header file.
#![tactic(auto)]

mod answers;
mod fields;

pub use answers::{refused, settle, verdict_number};
pub use fields::Fields;

// How many rows the table has.
pub const ROWS: usize = 32;

// How many words a row of the table takes.
pub const ROW_WORDS: usize = 3;

// How many words the table takes.
pub const TABLE_WORDS: usize = 96;

// The length of the longest message.
pub const LONGEST: usize = 1232;

// The length of the length field before a message in a stream.
pub const FRAME_BYTES: usize = 2;

// The length of the check of an encrypted message.
pub const CHECK_BYTES: usize = 20;

// The length of the longest acknowledgement.
pub const ACKNOWLEDGEMENT_BYTES: usize = 56;

// The length of the record of a saved row.
pub const RECORD_BYTES: usize = 18;

// The length of the records of all rows.
pub const SAVED_BYTES: usize = 576;

// How many places the fields of a message take.
pub const FIELDS: usize = 16;

// How many places the protected part takes.
pub const PART_PLACES: usize = 2;

// How many places a frame takes.
pub const FRAME_PLACES: usize = 5;

// How many places the fields of a row take.
pub const ROW_PLACES: usize = 5;

// Fields: the header as the wire has it: the version times 4,096, and the bits T, S, D and of the encrypt type.
pub const HEADER: usize = 0;

// Fields: the sum of the bits I, A and R of the exchange header that are set.
pub const FLAGS: usize = 1;

// Fields: the message id.
pub const ID: usize = 2;

// Fields: the source node, 0 where it is absent.
pub const SOURCE: usize = 3;

// Fields: the destination node, 0 where it is absent.
pub const DESTINATION: usize = 4;

// Fields: the key id, 0 of a plain message.
pub const KEY: usize = 5;

// Fields: the message type.
pub const KIND: usize = 6;

// Fields: the exchange id.
pub const EXCHANGE: usize = 7;

// Fields: the profile id.
pub const PROFILE: usize = 8;

// Fields: the acknowledged id, 0 where it is absent.
pub const ACKNOWLEDGED: usize = 9;

// Fields: where the payload or the packet starts in the message.
pub const PAYLOAD_START: usize = 10;

// Fields: the length of the payload or the packet.
pub const PAYLOAD_LENGTH: usize = 11;

// Fields: where the check starts in the message.
pub const CHECK_START: usize = 12;

// Fields: the length of the check.
pub const CHECK_LENGTH: usize = 13;

// Fields: the verdict.
pub const VERDICT: usize = 14;

// Fields: how many bytes of the output buffer are the acknowledgement.
pub const REPLY_LENGTH: usize = 15;

// Protected part: where it starts in the message.
pub const PART_START: usize = 0;

// Protected part: its length.
pub const PART_LENGTH: usize = 1;

// Frame: how many bytes are still wanted, 0 where the message is whole.
pub const FRAME_WANTED: usize = 0;

// Frame: where the message starts in the stream.
pub const FRAME_START: usize = 1;

// Frame: the length of the message.
pub const FRAME_LENGTH: usize = 2;

// Frame: where what follows the message starts in the stream.
pub const REST_START: usize = 3;

// Frame: the length of what follows the message.
pub const REST_LENGTH: usize = 4;

// Row: whether it is in use, 0 or 1.
pub const ROW_USED: usize = 0;

// Row: the sender's node.
pub const ROW_NODE: usize = 1;

// Row: the key id.
pub const ROW_KEY: usize = 2;

// Row: the highest id.
pub const ROW_HIGHEST: usize = 3;

// Row: the marks, mark k in bit k - 1.
pub const ROW_MARKS: usize = 4;

// Row of the table: the word of the node.
pub const NODE_WORD: usize = 0;

// Row of the table: the word of the in-use bit, the key id and the highest id.
pub const STATE_WORD: usize = 1;

// Row of the table: the word of the marks.
pub const MARKS_WORD: usize = 2;

// Header: what the version is multiplied by.
pub const VERSION: u64 = 4096;

// Header, T: an IP packet in place of the exchange fields and the payload.
pub const TUNNELLED: u64 = 1024;

// Header, S: the source is present.
pub const SOURCED: u64 = 512;

// Header, D: the destination is present.
pub const DESTINED: u64 = 256;

// Header: encrypt type 1.
pub const ENCRYPTED: u64 = 16;

// Flag I: sent by the one who began the exchange.
pub const INITIATOR: u64 = 1;

// Flag A: the acknowledged id is present.
pub const ACKNOWLEDGES: u64 = 2;

// Flag R: an acknowledgement is wanted.
pub const WANTS: u64 = 4;

// Verdict, as C gets it, by number: none was asked for.
pub const NONE: u64 = 0;

// Verdict: new, as far as its row can tell.
pub const NEW: u64 = 1;

// Verdict: heard before, or too far behind to tell.
pub const DUPLICATE: u64 = 2;

// The answer of a call that refuses nothing. A number and no `Result`: it is what C gets.
pub const NO_REFUSAL: u32 = 0;
