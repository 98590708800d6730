// Letting in a message whose nodes and check are good. The row is found once; it is rolled by value and
// put back only if the message is new.
ghost use Rattle.std.specs.Prelude.{◌≡◌, ◌<◌, ◌≤◌, length};
ghost use Rattle.reply.specs.Acknowledgement.{acknowledgement_of};
ghost use Rattle.table.specs.Table.{rows, find_of};
ghost use Rattle.admission.specs.Admission.{admit_of, full_of, table_by, buffer_by};

use crate::acknowledgement;
use crate::answers::Received;
use message::{Reason, Refusal, Taken};
use reply::Reply;
use table::{ROWS, WORDS};
use window::{Row, Verdict};

// The answer where all rows are in use: 22 and 19, then 20.
fn full(planned: Result<usize, Refusal>) -> Result<Received, Refusal>
    ensures { result ≡ full_of planned }
{
    planned?;
    Err(Reason::Full.into())
}

// A message whose name has the row at a number: 22 and 19 where an acknowledgement is wanted; then it
// is written, and the row is rolled: a new message puts it, a duplicate changes nothing.
fn admit_known(
    found: usize,
    reply: Reply,
    taken: Taken,
    table: &mut [u64; WORDS],
    out: &mut [u8],
) -> Result<Received, Refusal>
    requires { (found ≡ find_of rows table.old reply.sender taken.message.key) × (found < rows) }
    ensures result { result ≡ admit_of (acknowledgement_of reply.own reply.sender reply.id taken.message) (length out.old) reply.sender taken table.old }
    ensures table { table.new ≡ table_by result reply.sender taken.message table.old }
    ensures buffer { out.new ≡ buffer_by result (acknowledgement_of reply.own reply.sender reply.id taken.message) taken.message out.old }
{
    let m = taken.message;
    let length = acknowledgement::acknowledge(reply, m, out)?;
    let rolled = table_rows::row_under(table, found, reply.sender, m.key).rolled(m.id);
    match rolled.verdict {
        Verdict::New => table_rows::put_ids(table, found, rolled.row.highest, rolled.row.marks),
        Verdict::Duplicate => {}
    }
    Ok(Received {
        taken,
        reply: length,
        verdict: rolled.verdict,
    })
}

// A message whose name has no row: 22 and 19 where an acknowledgement is wanted, then 20; then the
// acknowledgement is written, and a row is opened at the lowest free number.
fn admit_first(
    reply: Reply,
    taken: Taken,
    table: &mut [u64; WORDS],
    out: &mut [u8],
) -> Result<Received, Refusal>
    requires { rows ≤ find_of rows table.old reply.sender taken.message.key }
    ensures result { result ≡ admit_of (acknowledgement_of reply.own reply.sender reply.id taken.message) (length out.old) reply.sender taken table.old }
    ensures table { table.new ≡ table_by result reply.sender taken.message table.old }
    ensures buffer { out.new ≡ buffer_by result (acknowledgement_of reply.own reply.sender reply.id taken.message) taken.message out.old }
{
    let m = taken.message;
    let Some(place) = search::find_free(table) else {
        return full(reply.plan(m, out.len()));
    };
    let length = acknowledgement::acknowledge(reply, m, out)?;
    table_rows::put_row(table, place, Row::open(reply.sender, m.key, m.id));
    Ok(Received {
        taken,
        reply: length,
        verdict: Verdict::New,
    })
}

// Lets in a message whose sender, receiver and check are good: `reply` has the nodes of the
// acknowledgement and its message id. In this order:
// - where an acknowledgement is wanted, 22 and 19;
// - 20, before anything is written.
// Then the acknowledgement stands at the front of `out`, and if the message is new its row in the
// table is moved or opened. A refusal leaves all of the table and of the buffer as they were. These stay two
// parameters: a caller lends each by itself, and each has a clause of its own.
#[tactic(auto, using(table::proofs::Found::found_some, table::proofs::Found::found_none))]
pub fn admit(
    reply: Reply,
    taken: Taken,
    table: &mut [u64; WORDS],
    out: &mut [u8],
) -> Result<Received, Refusal>
    ensures result { result ≡ admit_of (acknowledgement_of reply.own reply.sender reply.id taken.message) (length out.old) reply.sender taken table.old }
    ensures table { table.new ≡ table_by result reply.sender taken.message table.old }
    ensures buffer { out.new ≡ buffer_by result (acknowledgement_of reply.own reply.sender reply.id taken.message) taken.message out.old }
{
    // The row found is there: tested once here, its number is not tested again where it is read and put.
    match search::find(table, reply.sender, taken.message.key) {
        Some(found) if found < ROWS => admit_known(found, reply, taken, table, out),
        _ => admit_first(reply, taken, table, out),
    }
}
