// The boundary of `saving` and `restoring` to callers in other languages: the table as saved rows and
// back, over lent arrays. Each function gives the number of the refusal, 0 for none, and on a refusal
// leaves all that was lent as it was.
#![tactic(auto)]

mod saved;

pub use saved::{kabizarle_restore, kabizarle_save};
