// What reading, writing and the stream answer beside a value: the refusals, the head of a message, and what a stream holds.
ghost use Rattle.std.specs.Prelude.{◌≡◌, ◌++◌, ℕ, Some, codes, decimal};
ghost use Rattle.message.specs.Reasons.{number, refusal};

use crate::value::Message;
use std::error::Error;
use std::fmt;

// Why a message, a value, a buffer or a saved table was refused, each under its number.
#[derive(Clone, Copy, Debug, PartialEq, Eq)]
pub enum Reason {
    // Longer than 1,232 bytes.
    TooLong = 1,
    // Fewer bytes than the fields need.
    TooShort = 2,
    // A version other than 1 and 2.
    Version = 3,
    // A reserved bit of the header is set.
    Reserved = 4,
    // A tunnelled message of version 1.
    OldTunnel = 5,
    // An encrypt type other than 0 and 1.
    Encrypt = 6,
    // A key type other than 1 and 2.
    Key = 7,
    // A source that is all zero or all ones.
    Source = 8,
    // A destination that is all zero.
    Destination = 9,
    // F is zero, or a reserved bit of the exchange header is set.
    Exchange = 10,
    // A or R in version 1.
    OldAsks = 11,
    // A tunnel version other than 1.
    Tunnel = 12,
    // A packet that is neither IPv4 nor IPv6.
    Packet = 13,
    // Writing: an absent field is not zero, or the check bytes are not as many as they must be.
    Stray = 14,
    // The own node is all zero or all ones.
    OwnNode = 15,
    // The destination is neither the own node nor Any.
    NotOurs = 16,
    // No source in the message, and the link's node is all zero or all ones.
    Sender = 17,
    // Encrypted, and the check did not pass.
    Check = 18,
    // The output buffer is too small.
    NoRoom = 19,
    // The name has no row, and all rows are in use.
    Full = 20,
    // The name to be removed has no row.
    NoRow = 21,
    // The acknowledgement cannot be written, for a reason other than its room.
    Unwritable = 22,
    // Saved rows: a record whose mark is not 52 57.
    SavedMark = 23,
    // Saved rows: a length that is no multiple of 18, or more than 32 records.
    SavedLength = 24,
    // Saved rows: a node all zero or all ones, a key id neither 0 nor of type 1 or 2, or bit 15 set.
    SavedRow = 25,
    // Saved rows: a name twice.
    SavedTwice = 26,
    // A packet that is shorter than its own header, or of another length than that gives.
    PacketLength = 27,
}

impl Reason {
    // Its number. A method here and at the refusal of `widths`: a cast is of one enum, and no trait is over all of them.
    pub fn number(self) -> u8
        ensures { result ≡ number self }
    {
        self as u8
    }
}

// A reason, and the byte of the message that it is about.
#[derive(Clone, Copy, Debug, PartialEq, Eq)]
pub struct Refusal {
    pub reason: Reason,
    // Where a message is read, the byte at fault: the first of the field, the end where bytes are missing,
    // 1,232 where there are too many. Of any other refusal 0, and no `Option`: `refusal` says so, and C gets that number.
    pub offset: usize,
}

impl Refusal {
    // A reason, at a byte.
    pub fn at(reason: Reason, offset: usize) -> Refusal
        ensures { result ≡ record { reason = reason; offset = offset } }
    {
        Refusal { reason, offset }
    }
}

// A reason that is about no byte.
impl From<Reason> for Refusal {
    ghost from_gives = { λ reason given. given ≡ refusal reason };

    fn from(reason: Reason) -> Refusal {
        Refusal { reason, offset: 0 }
    }
}

// What was refused, by its number alone: a refusal, or a number, whose caller may have one that is no reason's.
pub trait Numbered: Copy {
    ghost numbered: { Self → ℕ };

    // Its number.
    fn number(self) -> u8
        ensures { result ≡ numbered self };
}

// That of its reason.
impl Numbered for Refusal {
    ghost numbered = { λ r. number r.reason };

    fn number(self) -> u8 {
        self.reason.number()
    }
}

impl Numbered for u8 {
    ghost numbered = { λ n. n };

    fn number(self) -> u8 {
        self
    }
}

// The number, as C gets it.
impl From<Refusal> for u32 {
    ghost from_gives = { λ r given. given ≡ number r.reason };

    fn from(refusal: Refusal) -> u32 {
        u32::from(refusal.reason.number())
    }
}

// The number, and where it is, in decimal.
impl fmt::Display for Refusal {
    ghost output = { λ r. Some (decimal (number r.reason) ++ (codes " " ++ decimal r.offset)) };

    fn fmt<W: fmt::Write>(&self, f: &mut fmt::Formatter<W>) -> fmt::Result {
        write!(f, "{} {}", self.reason.number(), self.offset)
    }
}

impl Error for Refusal {}

// What stands before the payload or the packet, beside the fields: the bits I, A and R as the wire has
// them, 0 of a tunnelled message, and how many bytes it is.
#[derive(Clone, Copy, Debug, PartialEq, Eq)]
pub struct Head {
    pub flags: u8,
    pub length: usize,
}

// A message that was taken: its value, and what stands before its payload or packet. The value stands first, so that an
// answer, which is this or a refusal, stays in registers: see `Message`.
#[derive(Clone, Copy, Debug, PartialEq, Eq)]
pub struct Taken {
    pub message: Message,
    pub head: Head,
}

// Of unframing: the length of the whole message at the front, or how many bytes are still wanted. No `Result`: a stream that
// is still on its way is not at fault.
#[derive(Clone, Copy, Debug, PartialEq, Eq)]
pub enum Unframed {
    Whole(usize),
    Incomplete(usize),
}
