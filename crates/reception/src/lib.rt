// Reception: receiving a message, and removing a row. It stands above the format, the window, the table
// and the admission, and goes by their contracts alone.
#![tactic(auto)]

mod receiving;
mod removing;

pub use admission::Received;
pub use receiving::{Delivery, receive};
pub use removing::remove;
