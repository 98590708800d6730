// The table of reception: 32 rows in words that the caller lends, and one row in its three words. A
// table's rows by their numbers are in `table_rows`, the search for one in `search`; what a message
// does to a row is in `window`, and what it does to the table in `admission`.
#![tactic(auto)]

pub mod layout;
mod rows;

pub use layout::{ROWS, WORDS};
pub use rows::{as_rows, put_at, put_words, row_from, state_of};
