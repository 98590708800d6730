// Reading a message: after outer reading, what a general or a tunnelled one holds.
#![tactic(auto)]

mod reading;

pub use reading::read;
