// What a table comes to over a history of messages, removals and restores. The history's own rule is
// in `specs/History.antt`, and that the functions of `reception` and `restoring` follow it in
// `proofs/Promises.antt`.
#![tactic(auto)]

pub use reception::{receive, remove};
pub use restoring::restore;
