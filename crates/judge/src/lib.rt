// What writing would answer, before any buffer is touched.
#![tactic(auto)]

mod judging;

pub use judging::would_write;
