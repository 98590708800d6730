// Rows: rolling one that is lent, and reading one of the table.
ghost use Rattle.std.specs.Prelude.{◌≡◌};
ghost use Rattle.window.specs.Rows.{rolled_of};
ghost use Rattle.table.specs.Table.{row_of, row_at};
ghost use Rattle.places.specs.Answers.{verdict_number};
ghost use Rattle.gateway_rows.specs.Rows.{rolled_words, row_places};

use places::{ROW_PLACES, ROW_WORDS, TABLE_WORDS};
use window::{Row, Verdict};

// Rolls a row forward by one id where it stands, in three words as the table has them, and says the
// verdict. New: the three words are put whole; duplicate: they stay as they were. Never refuses.
#[unsafe(no_mangle)]
pub extern "C" fn kabizarle_roll(row: &mut [u64; ROW_WORDS], id: u32, verdict: &mut u64) -> u32
    ensures result { result ≡ 0 }
    ensures row { row.new ≡ rolled_words (rolled_of (row_of row.old 0) id) row.old }
    ensures verdict { verdict.new ≡ verdict_number (rolled_of (row_of row.old 0) id).verdict }
{
    let rolled = table::row_from(row).rolled(id);
    match rolled.verdict {
        Verdict::New => table::put_words(row, rolled.row),
        Verdict::Duplicate => {}
    }
    *verdict = places::verdict_number(rolled.verdict);
    places::NO_REFUSAL
}

// Puts the fields of a row into their places; a bit that stands for no mark is clear.
#[tactic(auto, using(places::proofs::Spelled::stored5), unfolding(crate::specs::Rows::row_places))]
fn store_row(read: Row, row: &mut [u64; ROW_PLACES])
    ensures { row.new ≡ row_places read }
{
    row[places::ROW_USED] = u64::from(read.used);
    row[places::ROW_NODE] = read.node;
    row[places::ROW_KEY] = u64::from(read.key);
    row[places::ROW_HIGHEST] = u64::from(read.highest);
    row[places::ROW_MARKS] = u64::from(u32::from(read.marks) % Row::ABOVE_MARKS);
}

// The fields of the row at a number; past the last row they are all zero. Never refuses.
#[unsafe(no_mangle)]
pub extern "C" fn kabizarle_row(
    table: &[u64; TABLE_WORDS],
    number: usize,
    row: &mut [u64; ROW_PLACES],
) -> u32
    ensures result { result ≡ 0 }
    ensures row { row.new ≡ row_places (row_at table.now number) }
{
    store_row(table_rows::row_at(table, number), row);
    places::NO_REFUSAL
}
