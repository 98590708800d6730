// The boundary of `reception` to callers in other languages: receiving and removing over numbers and
// lent arrays. Each function gives the number of the refusal, 0 for none, and on a refusal leaves
// all that was lent as it was, but for the offset, which receiving hands out.
#![tactic(auto)]

mod receiving;
mod removing;

pub use receiving::kabizarle_receive;
pub use removing::kabizarle_remove;
