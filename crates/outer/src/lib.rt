// Outer reading: what the length, the header and the address fields of a message decide.
#![tactic(auto)]

mod outer;

pub use outer::{begin, read_outer};
