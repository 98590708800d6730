// A message as a value: its fields, its lengths and the refusals. The bytes are read by `outer`
// and `reader`, and written by `writer`.
#![tactic(auto)]

mod answers;
pub mod layout;
mod value;

pub use answers::{Head, Numbered, Reason, Refusal, Taken, Unframed};
pub use value::{Message, body_at, only_of};
