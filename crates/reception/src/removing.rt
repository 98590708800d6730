// Removing a row.
ghost use Rattle.std.specs.Prelude.{◌≡◌};
ghost use Rattle.reception.specs.Removing.{remove_of, remove_table};

use message::{Reason, Refusal};
use table::WORDS;
use window::Row;

// Frees the row of a name: all its words are zero. Or the refusal, and nothing changes.
pub fn remove(table: &mut [u64; WORDS], node: u64, key: u16) -> Result<(), Refusal>
    ensures result { result ≡ remove_of table.old node key }
    ensures table { table.new ≡ remove_table table.old node key }
{
    let Some(found) = search::find(table, node, key) else {
        return Err(Reason::NoRow.into());
    };
    table_rows::put_row(table, found, Row::FREE);
    Ok(())
}
