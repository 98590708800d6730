// What is wrong with saved bytes: the refusals of restoring.
#![tactic(auto)]

ghost use Rattle.std.specs.Prelude.{◌≡◌, ◌<◌};
ghost use Rattle.message.specs.Order.{first, passed};
ghost use Rattle.records.specs.Records.{wrong_mark, bad_row, same_name};
ghost use Rattle.records.specs.Restoring.{record_count, record_at, row_from, some_below, named_before, restoring_order};

use message::Reason;
use records::layout;
use table::ROWS;
use window::Row;

// The name of a row.
#[derive(Clone, Copy, PartialEq, Eq)]
struct Name {
    node: u64,
    key: u16,
}

impl From<Row> for Name {
    ghost from_gives = { λ row given. given ≡ record { node = row.node; key = row.key } };

    fn from(row: Row) -> Name {
        Name {
            node: row.node,
            key: row.key,
        }
    }
}

// Whether two rows have one name.
fn same_name(a: Row, b: Row) -> bool
    ensures { result ≡ same_name a b }
{
    Name::from(a) == Name::from(b)
}

// Whether any record has a wrong mark.
fn any_unmarked(bytes: &[u8]) -> bool
    ensures { result ≡ some_below (record_count bytes.now) (λ i. wrong_mark (record_at bytes.now i)) }
{
    bytes.chunks_exact(layout::RECORD).any(records::wrong_mark)
}

// Whether any record says a bad row. By the numbers of the records: over the chunks each takes an instruction more, where a
// restore is above the bar already, which is the count of C.
fn any_bad(bytes: &[u8]) -> bool
    ensures { result ≡ some_below (record_count bytes.now) (λ i. bad_row (row_from bytes.now i)) }
{
    (0..bytes.len() / layout::RECORD).any(|number| records::bad_row(row_from(bytes, number)))
}

// The row that the record at a number says.
#[tactic(auto, using(records::proofs::Fronts::record_row))]
fn row_from(bytes: &[u8], number: usize) -> Row
    requires { number < record_count bytes.now }
    ensures { result ≡ row_from bytes.now number }
{
    let at = layout::RECORD * number;
    records::row_in(&bytes[at..at + layout::RECORD])
}

// Whether the name of the record at a number stands in one before it. A `for`: by `any`, over the records or over
// their numbers, each comparison takes one to three instructions more, and a restore, with 496 of them, an eighth more at least.
fn named_before(bytes: &[u8], number: usize) -> bool
    requires { number < record_count bytes.now }
    ensures { result ≡ named_before bytes.now number }
{
    let row = row_from(bytes, number);
    for before in 0..number {
        if same_name(row_from(bytes, before), row) {
            return true;
        }
    }
    false
}

// Whether any record has the name of one before it.
fn any_named_twice(bytes: &[u8]) -> bool
    ensures { result ≡ some_below (record_count bytes.now) (named_before bytes.now) }
{
    (0..bytes.len() / layout::RECORD).any(|number| named_before(bytes, number))
}

// What is wrong with saved bytes, if anything is. Each is looked for in all records before the next: 24, 23,
// 25, 26. The names are compared each with all before it: 496 comparisons where there are 32.
#[tactic(auto, unfolding(records::specs::Restoring::restoring_order))]
pub fn test_saved(bytes: &[u8]) -> Result<(), Reason>
    ensures { result ≡ passed (first (restoring_order bytes.now)) }
{
    if (bytes.len() % layout::RECORD != 0) | (ROWS < bytes.len() / layout::RECORD) {
        return Err(Reason::SavedLength);
    }
    if any_unmarked(bytes) {
        return Err(Reason::SavedMark);
    }
    if any_bad(bytes) {
        return Err(Reason::SavedRow);
    }
    if any_named_twice(bytes) {
        return Err(Reason::SavedTwice);
    }
    Ok(())
}
