// One saved row: a record of 18 bytes, the node EUI[0] first as in a message, the other numbers low byte
// first.
//
//     bytes    0 ..  1 | 2 .. 9 | 10 .. 11 | 12 .. 15   | 16 .. 17
//               52 57  |  node  |  key id  | highest id |  marks

// How long a record is.
pub const RECORD: usize = 18;

// Its mark, as a number of two bytes.
pub const MARK: u16 = 0x5752;

// Where its fields stand.
pub const NODE_AT: usize = 2;

pub const KEY_AT: usize = 10;

pub const HIGHEST_AT: usize = 12;

pub const MARKS_AT: usize = 16;
