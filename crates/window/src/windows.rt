// The ids accepted last from one sender, whatever its name, and what an arriving id is to them: over how far behind the highest an id may
// lie and the number of marks.
ghost use Rattle.std.specs.Prelude.{◌≡◌, ◌-◌, ◌*◌, ◌%◌, ◌^◌, ◌<◌, ◌≤◌, min, bit_or};
ghost use Rattle.window.specs.Rows.{behind_encrypted};
ghost use Rattle.window.specs.Windows.{heard_as, heard_at, most_marks};

use crate::Row;

// What is known of the ids of one sender: the highest, and a mark for each of so many below it.
//
//     bit    63  ..  W | W - 1  ..   2   1   0
//     mark    -  ..  - |   W    ..   3   2   1
//
// With W marks, bit k - 1 says whether the id k below the highest was accepted, and the highest itself was. Bits from W on stand for no
// mark: they count as clear, and are clear once the window changes. A window not in use says nothing of ids. `used` is a flag and no `Option`
// round the others: the window of a row (`window_of`) is all of it but its name, in use or not.
#[derive(Clone, Copy, Debug, PartialEq, Eq)]
pub struct Window {
    pub used: bool,
    pub highest: u32,
    pub marks: u64,
}

// A new id at a window: how far behind the highest it lies (0 where it is ahead), and the highest id and the marks of the window after it,
// which is in use. The two stand here and not in a `Window`: with one, an id of a trial takes
// some 13 instructions more.
#[derive(Clone, Copy, Debug, PartialEq, Eq)]
pub struct Heard {
    pub late: u32,
    pub highest: u32,
    pub marks: u64,
}

impl Heard {
    fn new(late: u32, highest: u32, marks: u64) -> Heard
        ensures { result ≡ heard_as late highest marks }
    {
        Heard {
            late,
            highest,
            marks,
        }
    }
}

// The marks once the highest has moved up by `ahead`, which is no more than there are marks: the old highest gets one below them, all move
// up, and past the last they are gone.
fn shifted(marks: u64, held: u32, ahead: u32) -> u64
    requires { (held ≤ most_marks) × (0 < ahead) × (ahead ≤ held) }
    ensures { result ≡ bit_or (marks * 2 ^ ahead) (2 ^ (ahead - 1)) % 2 ^ held }
{
    ((((marks << 1) | 1) << ahead) >> 1) % (1u64 << held)
}

impl Window {
    // The most marks that a window has.
    pub const MOST: u32 = 63;

    // What an arriving id is to a window of `held` marks that looks `behind` ids back: new, or a duplicate, which changes nothing (`None`). The
    // nearest cases come first:
    // - a window not in use begins at the id;
    // - the highest id again is a duplicate;
    // - an id ahead by no more than there are marks becomes the highest, and the marks move up;
    // - within the marks, it is a duplicate if its mark is set, and else sets it;
    // - further behind it is a duplicate, as far as the window looks back;
    // - any other id is further ahead, or counts as ahead: it becomes the highest, and no mark is left.
    pub(crate) fn heard_within(self, behind: u32, held: u32, id: u32) -> Option<Heard>
        requires { (held ≤ most_marks) × (held ≤ behind) × (behind ≤ behind_encrypted) }
        ensures { result ≡ heard_at behind held self id }
    {
        if !self.used {
            return Some(Heard::new(0, id, 0));
        }
        let ahead = id.wrapping_sub(self.highest);
        if ahead == 0 {
            return None;
        }
        if ahead <= held {
            return Some(Heard::new(0, id, shifted(self.marks, held, ahead)));
        }
        // The bit of the id's mark where it is behind: one less than the way back.
        let bit = u32::MAX - ahead;
        if bit < held {
            if (self.marks >> bit) % 2 == 1 {
                return None;
            }
            let filled = (self.marks | (1u64 << bit)) % (1u64 << held);
            return Some(Heard::new(bit + 1, self.highest, filled));
        }
        if bit < behind {
            return None;
        }
        Some(Heard::new(0, id, 0))
    }

    // What an arriving id of an encrypted sender is to a window of `held` marks; more than `MOST` count as `MOST`.
    pub fn heard(self, held: u32, id: u32) -> Option<Heard>
        ensures { result ≡ heard_at behind_encrypted (min held most_marks) self id }
    {
        self.heard_within(Row::BEHIND_ENCRYPTED, held.min(Window::MOST), id)
    }
}
