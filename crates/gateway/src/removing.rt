// Removing a row.
ghost use Rattle.std.specs.Prelude.{◌≡◌};
ghost use Rattle.message.specs.Answers.{number_in};
ghost use Rattle.reception.specs.Removing.{remove_of, remove_table};

use places::TABLE_WORDS;

// Frees the row of a name: all its words are zero. Refusal 21.
#[unsafe(no_mangle)]
pub extern "C" fn kabizarle_remove(table: &mut [u64; TABLE_WORDS], node: u64, key: u16) -> u32
    ensures result { result ≡ number_in (remove_of table.old node key) }
    ensures table { table.new ≡ remove_table table.old node key }
{
    match reception::remove(table, node, key) {
        Ok(()) => places::NO_REFUSAL,
        Err(refusal) => u32::from(refusal),
    }
}
