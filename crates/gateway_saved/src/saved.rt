// The table as saved rows, and back.
ghost use Rattle.std.specs.Prelude.{◌≡◌, length};
ghost use Rattle.message.specs.Answers.{number_in};
ghost use Rattle.records.specs.Saving.{save_of, save_buffer};
ghost use Rattle.records.specs.Restoring.{restore_of, restore_table};
ghost use Rattle.places.specs.Answers.{count_after};

use places::TABLE_WORDS;

// Writes the records of all rows in use at the front of a buffer, and says how many bytes they are; the
// table stays as it was. Refusal 19.
#[unsafe(no_mangle)]
pub extern "C" fn kabizarle_save(
    table: &[u64; TABLE_WORDS],
    out: &mut [u8],
    written: &mut u64,
) -> u32
    ensures result { result ≡ number_in (save_of table.now (length out.old)) }
    ensures buffer { out.new ≡ save_buffer table.now out.old }
    ensures written { written.new ≡ count_after (save_of table.now (length out.old)) written.old }
{
    let answer = saving::save(table, out);
    places::settle(answer, written)
}

// Replaces the whole table by the rows of saved records, and says how many they are. Refusals 24, 23, 25
// and 26.
#[unsafe(no_mangle)]
pub extern "C" fn kabizarle_restore(
    table: &mut [u64; TABLE_WORDS],
    bytes: &[u8],
    placed: &mut u64,
) -> u32
    ensures result { result ≡ number_in (restore_of bytes.now) }
    ensures table { table.new ≡ restore_table bytes.now table.old }
    ensures placed { placed.new ≡ count_after (restore_of bytes.now) placed.old }
{
    let answer = restoring::restore(table, bytes);
    places::settle(answer, placed)
}
