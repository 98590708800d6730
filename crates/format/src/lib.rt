// The Weave message format: a message as a value, reading, outer reading, writing, and the framing of
// a stream, under one name. `read` gives the value or the refusal, `split` the two parts as slices of the
// caller's bytes, and `payload` and `check` each of them; `write` is its mirror, and `acknowledge` writes the standalone
// acknowledgement of a message. Nothing here knows of rows or
// verdicts. The laws of all of it are in `proofs/Promises.antt`.
#![tactic(auto)]

pub use judge::would_write;
pub use message::{Head, Message, Reason, Refusal, Taken, Unframed};
pub use outer::read_outer;
pub use parts::{Parts, check, payload, split};
pub use reader::read;
pub use stream::{frame, framed_message, framed_rest, unframe};
pub use writer::{Reply, acknowledge, write};
