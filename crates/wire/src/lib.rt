// Numbers as bytes: what they are, in `specs`, and a number got from the front of a slice or put there.
// 1, 2 and 4 bytes low byte first; a node's 8 bytes, and the 2 of a packet's length, high byte first.
//
// A caller names the place by the part that it passes: `&bytes[at..at + 4]`, or no bytes where the field is
// absent, which is 0 then and is put nowhere. Where the length of the part is known, the test for it costs
// nothing.
#![tactic(auto)]

mod front;
mod number;
mod packet;

pub use number::Number;
pub use packet::get_big16;
