// Saving a table: the records of its rows in use, in row order, at the front of a buffer.
#![tactic(auto)]

ghost use Rattle.std.specs.Prelude.{◌≡◌, ◌*◌, ◌≤◌, ◌++◌, length, drop, ltb};
ghost use Rattle.table.specs.Table.{rows_in_use};
ghost use Rattle.records.specs.Records.{record_of};
ghost use Rattle.records.specs.Saving.{saved_bytes, save_of, save_buffer};

use message::{Reason, Refusal};
use records::layout;
use table::{ROWS, WORDS};
use window::Row;
use wire::Number;

// How many rows are in use. A `for`: counted by `filter` and `count`, a table that is saved into less than 576 bytes takes twice the time.
fn rows_in_use(table: &[u64; WORDS]) -> usize
    ensures { (result ≡ length (rows_in_use table.now)) × (result ≤ 32) }
{
    let mut count = 0;
    for number in 0..ROWS {
        if table_rows::row_at(table, number).used {
            count += 1;
        }
    }
    count
}

// 19. Where there is room for a record of every row, those in use are not counted.
#[tactic(auto, using(crate::proofs::Loops::room_for_all, crate::proofs::Loops::room_by_count))]
fn lacks_room(table: &[u64; WORDS], room: usize) -> bool
    ensures { result ≡ ltb room (length (saved_bytes table.now)) }
{
    if layout::RECORD * ROWS <= room {
        return false;
    }
    room < layout::RECORD * rows_in_use(table)
}

// Puts the record of a row into a slice that is as long as one. The bit that stands for no mark is zero in it.
fn put_record(out: &mut [u8], row: Row)
    requires { length out.old ≡ 18 }
    ensures { out.new ≡ record_of row }
{
    let (mark, rest) = out.split_at_mut(layout::NODE_AT);
    let (node, rest) = rest.split_at_mut(layout::KEY_AT - layout::NODE_AT);
    let (key, rest) = rest.split_at_mut(layout::HIGHEST_AT - layout::KEY_AT);
    let (highest, marks) = rest.split_at_mut(layout::MARKS_AT - layout::HIGHEST_AT);
    layout::MARK.put(mark);
    row.node.put(node);
    row.key.put(key);
    row.highest.put(highest);
    (row.marks % (1 << Row::MARKS)).put(marks);
}

// Puts the record of each row in use, one behind the other, and gives the length of them all. The place is counted by
// hand: what a loop wrote into chunks, or into a rest that it moves along by `split_at_mut`, no proof knows afterwards, and
// places by `enumerate` leave the length of all to be counted once more.
#[tactic(auto, using(wire::proofs::Runs::sets_front))]
fn put_records(table: &[u64; WORDS], out: &mut [u8]) -> usize
    requires { length (saved_bytes table.now) ≤ length out.old }
    ensures { (result ≡ length (saved_bytes table.now)) × (out.new ≡ saved_bytes table.now ++ drop (length (saved_bytes table.now)) out.old) }
{
    let mut at = 0;
    for number in 0..ROWS {
        let row = table_rows::row_at(table, number);
        if row.used {
            put_record(&mut out[at..at + layout::RECORD], row);
            at += layout::RECORD;
        }
    }
    at
}

// Saves a table: 18 bytes for each row in use at the front of `out`, and their length. The table is
// only read. A row is saved as it stands, whatever it says, but for the bit that stands for no mark. Where
// there is not room for all rows in use it refuses with 19, and the buffer stays as it was.
#[tactic(auto, unfolding(records::specs::Saving::saving_order, records::specs::Saving::save_of, records::specs::Saving::save_buffer))]
pub fn save(table: &[u64; WORDS], out: &mut [u8]) -> Result<usize, Refusal>
    ensures result { result ≡ save_of table.now (length out.old) }
    ensures buffer { out.new ≡ save_buffer table.now out.old }
{
    if lacks_room(table, out.len()) {
        return Err(Refusal::from(Reason::NoRoom));
    }
    Ok(put_records(table, out))
}
