// The search of a table for a row: by its name, and for one that is free.
#![tactic(auto)]

ghost use Rattle.std.specs.Prelude.{◌≡◌, ◌<◌, ℕ, Bool};
ghost use Rattle.table.specs.Table.{rows, row_of, named, is_free, find_of, free_of, first_below, found_row};

use table::{ROWS, WORDS, layout};

// Whether the row at a number is in use under this name. The node is compared first; in-use bit and
// key id are compared as one number.
fn is_named(table: &[u64; WORDS], number: usize, node: u64, key: u16) -> bool
    requires { number < rows }
    ensures { result ≡ named node key (row_of table.now number) }
{
    let words = &table::as_rows(table)[number];
    words[layout::NODE] == node
        && words[layout::STATE] / layout::KEY % layout::KEYS_AND_USE
            == layout::KEYS + u64::from(key)
}

// Whether the row at a number is free.
#[tactic(auto, using(table::proofs::ByRow::row_by_row), unfolding(table::specs::Table::row_of))]
fn is_free(table: &[u64; WORDS], number: usize) -> bool
    requires { number < rows }
    ensures { result ≡ is_free (row_of table.now number) }
{
    let words = &table::as_rows(table)[number];
    words[layout::STATE] / layout::IN_USE % 2 != 1
}

// The first number of a row that passes a test, if one does: the loop breaks with it, or with the number of rows
// where none passes. With the library's `position` over the rows receiving takes one to two instructions more,
// where it is above the bar already, which is the count of C.
fn first_row<F: Fn(usize) -> bool>(test: F) -> Option<usize>
    requires { (i : ℕ) → i < rows → F.pre test i }
    ensures { (p : ℕ → Bool) → ((i : ℕ) (b : Bool) → i < rows → F.post test i b → b ≡ p i) → result ≡ found_row (first_below rows p) }
{
    let mut number = 0;
    let found = loop {
        if ROWS <= number {
            break ROWS;
        }
        if test(number) {
            break number;
        }
        number += 1;
    };
    (found < ROWS).then_some(found)
}

// The number of the first row in use under this name, if there is one. Node and key id stay two
// parameters, as `reception::remove`, which README names, and the fields of a row have them.
pub fn find(table: &[u64; WORDS], node: u64, key: u16) -> Option<usize>
    ensures { result ≡ found_row (find_of rows table.now node key) }
{
    first_row(|number| is_named(table, number, node, key))
}

// The lowest number of a free row, if there is one.
pub fn find_free(table: &[u64; WORDS]) -> Option<usize>
    ensures { result ≡ found_row (free_of rows table.now) }
{
    first_row(|number| is_free(table, number))
}
