// Writing a message: the bytes of a value at the front of a buffer. The standalone acknowledgement, whose
// value and judgement are those of `reply`, is written in the same way.
#![tactic(auto)]

mod acknowledging;
mod writing;

pub use acknowledging::acknowledge;
pub use reply::Reply;
pub use writing::write;
