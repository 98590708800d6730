// The boundary of `format` to callers in other languages: reading, writing and framing over numbers and
// lent arrays. Each function gives the number of the refusal, 0 for none, and on a refusal leaves all
// that was lent as it was, but for the offset, which a reading hands out. `gateway_format_c` exports them.
#![tactic(auto)]

mod messages;
mod protected;
mod streams;

pub use messages::{kabizarle_read, kabizarle_write};
pub use protected::kabizarle_read_outer;
pub use streams::{kabizarle_frame, kabizarle_unframe};
