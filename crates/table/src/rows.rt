// One row in three words: reading it, and putting it.
ghost use Rattle.std.specs.Prelude.{◌≡◌, ◌+◌, ◌*◌, ◌^◌, length};
ghost use Rattle.table.specs.Table.{rows, one_if, row_of, with_row, put_among, words_by_row};

use crate::layout;
use window::Row;

// The words of a table, three to a row.
#[tactic(auto, using(crate::proofs::ByRow::length_by_row), unfolding(crate::specs::Table::words_by_row))]
pub fn as_rows(table: &[u64; layout::WORDS]) -> &[[u64; layout::ROW]]
    ensures { (result.now ≡ words_by_row table.now) × (length result.now ≡ rows) }
{
    table.as_chunks().0
}

// The row that three words hold: node, then in-use bit, key id and highest id in one, then the marks.
#[tactic(auto, unfolding(crate::specs::Table::row_of))]
pub fn row_from(words: &[u64; layout::ROW]) -> Row
    ensures { result ≡ row_of words.now 0 }
{
    let [node, state, marks] = *words;
    // A remainder makes each number fit before its cast; `From` does not narrow.
    Row {
        used: state / layout::IN_USE % 2 == 1,
        node,
        key: (state / layout::KEY % layout::KEYS) as u16,
        highest: (state % layout::IDS) as u32,
        marks: (marks % layout::MARK_BITS) as u16,
    }
}

// Word 1 of a row: in-use bit, key id and highest id.
pub fn state_of(row: Row) -> u64
    ensures { result ≡ one_if row.used * 2 ^ 48 + (row.key * 2 ^ 32 + row.highest) }
{
    u64::from(row.used) * layout::IN_USE
        + (u64::from(row.key) * layout::KEY + u64::from(row.highest))
}

// Puts a row into its three words of many, whole; all other words stay. Where it is not among them nothing changes.
#[tactic(auto, unfolding(crate::specs::Table::with_row))]
pub fn put_at<const N: usize>(words: &mut [u64; N], number: usize, row: Row)
    ensures { words.new ≡ put_among N words.old number row }
{
    if number < N / layout::ROW {
        let at = layout::ROW * number;
        words[at] = row.node;
        words[at + layout::STATE] = state_of(row);
        words[at + layout::MARKS] = u64::from(row.marks);
    }
}

// Puts a row into three words, whole. It only calls `put_at`, and stands because `one_put_words` is a law of its clause.
// The proof looks into `with_row`, so that a wrong body is refused by what it stores and not by its form.
#[tactic(auto, unfolding(crate::specs::Table::with_row))]
pub fn put_words(words: &mut [u64; layout::ROW], row: Row)
    ensures { words.new ≡ with_row words.old 0 row }
{
    put_at(words, 0, row);
}
