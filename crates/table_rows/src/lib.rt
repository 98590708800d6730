// The rows of a table by their numbers: reading one, and putting one.
#![tactic(auto)]

ghost use Rattle.std.specs.Prelude.{◌≡◌};
ghost use Rattle.table.specs.Table.{row_at, put_at, row_under, with_ids};

use table::{ROWS, WORDS, layout};
use window::Row;

// The row at a number. Past the last row it is free, and zero in every field.
#[tactic(auto, using(table::proofs::Words::row_past))]
pub fn row_at(table: &[u64; WORDS], number: usize) -> Row
    ensures { result ≡ row_at table.now number }
{
    match table::as_rows(table).get(number) {
        Some(words) => table::row_from(words),
        None => Row::FREE,
    }
}

// The row at a number, in use under a name that the caller knows already, as after a search: what is left
// to be read of it is its ids, whatever the row says of its name and its use. Past the last row they are zero.
#[tactic(auto, using(table::proofs::Words::row_past))]
pub fn row_under(table: &[u64; WORDS], number: usize, node: u64, key: u16) -> Row
    ensures { result ≡ row_under node key (row_at table.now number) }
{
    match table::as_rows(table).get(number) {
        // A remainder makes each number fit before its cast; `From` does not narrow.
        Some(words) => Row {
            used: true,
            node,
            key,
            highest: (words[layout::STATE] % layout::IDS) as u32,
            marks: (words[layout::MARKS] % layout::MARK_BITS) as u16,
        },
        None => Row::open(node, key, 0),
    }
}

// Puts a row at a number, its three words whole; all other words stay. Past the last row nothing
// changes. It only calls `table::put_at`, and stands because `one_put_row` is a law of its clause.
// The proof looks into `with_row`, so that a wrong body is refused by what it stores and not by its form.
#[tactic(auto, unfolding(table::specs::Table::put_at, table::specs::Table::with_row))]
pub fn put_row(table: &mut [u64; WORDS], number: usize, row: Row)
    ensures { table.new ≡ put_at table.old number row }
{
    table::put_at(table, number, row);
}

// Puts other ids into the row at a number: its name and its use stay as they are. Past the last row
// nothing changes. The words are stored to by their places: what `as_chunks_mut` lends, the library does
// not say how the table ends.
#[tactic(auto, using(table::proofs::Ids::ids_put, table::proofs::Words::put_past))]
pub fn put_ids(table: &mut [u64; WORDS], number: usize, highest: u32, marks: u16)
    ensures { table.new ≡ put_at table.old number (with_ids (row_at table.old number) highest marks) }
{
    if ROWS <= number {
        return;
    }
    let at = layout::ROW * number;
    let name = table[at + layout::STATE] / layout::KEY % layout::KEYS_AND_USE;
    table[at + layout::STATE] = name * layout::KEY + u64::from(highest);
    table[at + layout::MARKS] = u64::from(marks);
}
