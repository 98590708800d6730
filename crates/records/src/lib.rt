// Saved rows: what saving and restoring come to, in `specs`, and one record: the row that it says, and what
// is wrong with it. Saving is in `saving`, restoring in `restoring`, what it refuses in `faults`.
#![tactic(auto)]

pub mod layout;

ghost use Rattle.std.specs.Prelude.{◌≡◌};
ghost use Rattle.records.specs.Records.{front_row, wrong_mark, bad_row};

use window::Row;
use wire::Number;

// The row of the record at the front of a slice: in use, with what the fields say, whatever that is.
// Where the slice is shorter than a record, a free row.
pub fn row_in(bytes: &[u8]) -> Row
    ensures { result ≡ front_row bytes.now }
{
    if bytes.len() < layout::RECORD {
        return Row::FREE;
    }
    Row {
        used: true,
        node: u64::get(&bytes[layout::NODE_AT..layout::KEY_AT]),
        key: u16::get(&bytes[layout::KEY_AT..layout::HIGHEST_AT]),
        highest: u32::get(&bytes[layout::HIGHEST_AT..layout::MARKS_AT]),
        marks: u16::get(&bytes[layout::MARKS_AT..layout::RECORD]),
    }
}

// 23, of a record.
pub fn wrong_mark(bytes: &[u8]) -> bool
    ensures { result ≡ wrong_mark bytes.now }
{
    u16::get(bytes) != layout::MARK
}

// 25, of the row that a record says. The marks are asked before the key, which takes fewer instructions.
#[tactic(auto, unfolding(window::specs::Rule::bit_at))]
pub fn bad_row(row: Row) -> bool
    ensures { result ≡ bad_row row }
{
    conditions::is_nobody(row.node)
        || (row.marks >> Row::MARKS) % 2 == 1
        || (conditions::bad_key_type(row.key) && row.key != 0)
}
