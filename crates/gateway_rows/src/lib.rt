// The boundary of rows to callers in other languages: rolling one that is lent, and showing one of the
// table, over numbers and lent arrays. Both give 0 always.
#![tactic(auto)]

mod rows;

pub use rows::{kabizarle_roll, kabizarle_row};
