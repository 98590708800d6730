// One row of the reception table, and what an arriving message id does to it: the rule of positions ("Rows and verdicts"). A row is a window
// under a name; what an id is to a window is in `windows`. The table, the search for a name and the messages themselves are not here.
#![tactic(auto)]

mod windows;

ghost use Rattle.std.specs.Prelude.{◌≡◌};
ghost use Rattle.window.specs.Rows.{again, behind_of, opened, rolled_of, taken, window_of};

pub use windows::{Heard, Window};

// What an arriving id is: new, as far as its row can tell; or heard before, or too far behind to tell.
#[derive(Clone, Copy, Debug, PartialEq, Eq)]
pub enum Verdict {
    New,
    Duplicate,
}

// What is known of one sender: its name, which is its node and key id, and the ids accepted last.
//
//     bit    15 | 14  13  12  ..   2   1   0
//     mark    - | 15  14  13  ..   3   2   1
//
// In a row in use bit k - 1 of the marks says whether the id k below the highest was accepted, and `highest` itself was.
// Bit 15 stands for no mark: it counts as clear, and is clear once the row changes. A row not in use says nothing of ids.
// It holds the fields of a `Window` and not one, since its marks are 16 bits, as they are saved. `used` is a flag and no `Option` round the
// others, since these count without it: `row_at` of `table_rows` promises them as the words have them, and a first id takes the row under its
// name (`gateway_first_under_its_name`).
#[derive(Clone, Copy, Debug, PartialEq, Eq)]
pub struct Row {
    pub used: bool,
    pub node: u64,
    pub key: u16,
    pub highest: u32,
    pub marks: u16,
}

// The verdict on an arriving id, and the row after it. No `Option<Row>`: `rolled_of` gives a duplicate's row too (`again`).
#[derive(Clone, Copy, Debug, PartialEq, Eq)]
pub struct Rolled {
    pub verdict: Verdict,
    pub row: Row,
}

impl Row {
    // How many ids below the highest have a mark.
    pub const MARKS: u32 = 15;
    // How far behind the highest an id of an encrypted row may lie.
    pub const BEHIND_ENCRYPTED: u32 = 0x8000_0000;
    // How far behind the highest an id of a plain row may lie.
    pub const BEHIND_PLAIN: u32 = 15;
    // The least number above all marks.
    pub const ABOVE_MARKS: u32 = 1 << Row::MARKS;
    // A free row, and zero in every field.
    pub const FREE: Row = Row {
        used: false,
        node: 0,
        key: 0,
        highest: 0,
        marks: 0,
    };

    // A row in use under this name, whose first accepted id is `id`: it has no marks.
    pub fn open(node: u64, key: u16, id: u32) -> Row
        ensures { result ≡ opened node key id }
    {
        Row {
            used: true,
            node,
            key,
            highest: id,
            marks: 0,
        }
    }

    // How far behind the highest an id may lie: a row whose key id is not 0 is encrypted.
    #[tactic(auto, unfolding(crate::specs::Rows::behind_of))]
    fn behind(key: u16) -> u32
        ensures { result ≡ behind_of key }
    {
        if key == 0 {
            Row::BEHIND_PLAIN
        } else {
            Row::BEHIND_ENCRYPTED
        }
    }

    // New: the row in use under its name, with this highest id and these marks.
    fn taken(self, highest: u32, marks: u16) -> Rolled
        ensures { result ≡ taken self highest marks }
    {
        Rolled {
            verdict: Verdict::New,
            row: Row {
                marks,
                ..Row::open(self.node, self.key, highest)
            },
        }
    }

    // Duplicate: the row as it is.
    fn again(self) -> Rolled
        ensures { result ≡ again self }
    {
        Rolled {
            verdict: Verdict::Duplicate,
            row: self,
        }
    }

    // What an arriving id is, and the row after it: a row is a window under its name.
    pub fn rolled(self, id: u32) -> Rolled
        ensures { result ≡ rolled_of self id }
    {
        match Window::from(self).heard_within(Row::behind(self.key), Row::MARKS, id) {
            // The marks of a row are 15 bits, so the cast loses none; `From` does not narrow.
            Some(heard) => self.taken(heard.highest, heard.marks as u16),
            None => self.again(),
        }
    }

    // Rolls a lent row forward by one message where it stands, and gives the verdict: the row is then what `rolled` makes of it.
    pub fn roll(&mut self, id: u32) -> Verdict
        ensures { (result ≡ (rolled_of self.old id).verdict) × (self.new ≡ (rolled_of self.old id).row) }
    {
        let after = self.rolled(id);
        *self = after.row;
        after.verdict
    }
}

// The window of a row: all but its name.
impl From<Row> for Window {
    ghost from_gives = { λ row r. r ≡ window_of row };

    fn from(row: Row) -> Window {
        Window {
            used: row.used,
            highest: row.highest,
            marks: u64::from(row.marks),
        }
    }
}
