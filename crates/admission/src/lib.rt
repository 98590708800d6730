// Admission: what a message whose nodes and check are good comes to. Its row is found or opened, its
// verdict given, and its acknowledgement written.
#![tactic(auto)]

mod acknowledgement;
mod admitting;
mod answers;

pub use admitting::admit;
pub use answers::Received;
