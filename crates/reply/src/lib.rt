// The reply to a message: the value of its acknowledgement, what writing that would answer, and the
// reason where it cannot be written. Nothing is written here.
#![tactic(auto)]

mod acknowledging;
mod planning;

pub use acknowledging::{Reply, judged};
pub use planning::with_reason;
