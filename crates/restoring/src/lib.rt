// Restoring a table from saved bytes: where nothing is wrong with them, their rows take the place of the
// whole table.
#![tactic(auto)]

ghost use Rattle.std.specs.Prelude.{◌≡◌, ◌≤◌};
ghost use Rattle.table.specs.Table.{rows};
ghost use Rattle.records.specs.Restoring.{record_count, restore_of, restore_table, restored_table};

use message::Refusal;
use records::layout;
use table::{WORDS, layout as table_layout};

// Puts the row of each record, from the first row on; all other rows are free and zero.
fn place(table: &mut [u64; WORDS], bytes: &[u8]) -> usize
    requires { record_count bytes.now ≤ rows }
    ensures table { table.new ≡ restored_table bytes.now }
    ensures count { result ≡ record_count bytes.now }
{
    let count = bytes.len() / layout::RECORD;
    for (number, record) in bytes.chunks_exact(layout::RECORD).enumerate() {
        table_rows::put_row(table, number, records::row_in(record));
    }
    table[table_layout::ROW * count..].fill(0);
    count
}

// Restores a table: the rows of the records take the place of all of it, and it says how many they are. No
// bytes are an empty table. Where it refuses, with 24, 23, 25 or 26, every word of the table stays.
#[tactic(auto, using(crate::proofs::Placing::row_for_each), unfolding(records::specs::Restoring::restore_of, records::specs::Restoring::restore_table))]
pub fn restore(table: &mut [u64; WORDS], bytes: &[u8]) -> Result<usize, Refusal>
    ensures result { result ≡ restore_of bytes.now }
    ensures table { table.new ≡ restore_table bytes.now table.old }
{
    faults::test_saved(bytes)?;
    Ok(place(table, bytes))
}
