// The table: 32 rows in 96 words that the caller lends, three words to a row. All zero is the empty
// table.
//
//     word 0                node
//     word 1     63 .. 49 |   48   | 47 .. 32 | 31 ..  0
//                    -    | in use |  key id  | highest id
//     word 2     63 .. 16 | 15 .. 0
//                    -    |  marks
//
// Bits that belong to no field are never looked at, and are clear once the row is put.

// How many rows there are, how many words a row takes, and how many words that makes.
pub const ROWS: usize = 32;

pub const ROW: usize = 3;

pub const WORDS: usize = ROW * ROWS;

// Which word of a row is which.
pub const NODE: usize = 0;

pub const STATE: usize = 1;

pub const MARKS: usize = 2;

// The weights of the key id and of the in-use bit in word 1; the ranges of the fields, that of key id and
// in-use bit together among them.
pub const KEY: u64 = 0x1_0000_0000;

pub const KEYS: u64 = 0x1_0000;

pub const IN_USE: u64 = KEY * KEYS;

pub const KEYS_AND_USE: u64 = 2 * KEYS;

pub const IDS: u64 = KEY;

pub const MARK_BITS: u64 = 0x1_0000;
