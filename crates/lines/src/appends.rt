// A text that grows at the front of a buffer, piece by piece. The bytes after it stay as they were.
ghost use Rattle.std.specs.Prelude.{◌+◌, ◌≤◌, length};
ghost use Rattle.lines.specs.Appends.{Appends};
ghost use Rattle.lines.specs.Decimal.{decimal_text};
ghost use Rattle.lines.specs.Lines.{closing as Lines·closing, pair_text, line_text, figures_text};

use crate::{Figure, LINE, Said};

// The most digits that a u64 has.
const DIGITS: usize = 20;

// The buffer, and how many bytes at its front are text.
#[derive(Drop)]
pub(crate) struct Text<'a> {
    pub(crate) out: &'a mut [u8; LINE],
    pub(crate) len: usize,
}

impl Text<'_> {
    // All of a slice.
    fn bytes(self, from: &[u8]) -> Self
        requires { self.len + length from.now ≤ 72 }
        ensures { Appends self.entry from.now result }
    {
        let Text { out, len } = self;
        let end = len + from.len();
        out[len..end].copy_from_slice(from);
        Text { out, len: end }
    }

    // A number in decimal digits, of which there are at most 20.
    #[tactic(auto, using(crate::proofs::Decimals::fewest_text))]
    fn number(self, n: u64) -> Self
        requires { self.len + 20 ≤ 72 }
        ensures { Appends self.entry (decimal_text n) result }
    {
        let mut digits = [0u8; DIGITS];
        let count = io::decimal(n, &mut digits);
        self.bytes(&digits[..count])
    }

    // A word, a number and the end of the line.
    #[tactic(auto, using(crate::proofs::Decimals::decimal_most))]
    pub(crate) fn closing(self, word: &[u8], n: u64) -> Self
        requires { self.len + length word.now + 21 ≤ 72 }
        ensures { Appends self.entry (Lines·closing word.now n) result }
    {
        self.bytes(word).number(n).bytes(b"\n")
    }

    // A word, a number, a space, another number and the end of the line.
    #[tactic(auto, using(crate::proofs::Decimals::decimal_most))]
    fn pair(self, word: &[u8], first: u64, second: u64) -> Self
        requires { self.len + length word.now + 42 ≤ 72 }
        ensures { Appends self.entry (pair_text word.now first second) result }
    {
        self.bytes(word).number(first).closing(b" ", second)
    }

    // The line of a message: its ordinal, and what is said of it.
    #[tactic(auto, using(crate::proofs::Decimals::decimal_most))]
    pub(crate) fn line(self, ordinal: u64, said: Said) -> Self
        requires { self.len + 71 ≤ 72 }
        ensures { Appends self.entry (line_text ordinal said) result }
    {
        let text = self.number(ordinal);
        match said {
            Said::New(id) => text.closing(b" new ", u64::from(id)),
            Said::Duplicate(id) => text.closing(b" duplicate ", u64::from(id)),
            // There is no `From` for a `usize`, neither here nor below.
            Said::Refused(number, offset) => {
                text.pair(b" refused ", u64::from(number), offset as u64)
            }
        }
    }

    // A line of the trial.
    #[tactic(auto, using(crate::proofs::Decimals::decimal_most))]
    pub(crate) fn figure(self, figure: Figure) -> Self
        requires { self.len + 63 ≤ 72 }
        ensures { Appends self.entry (figures_text figure) result }
    {
        match figure {
            Figure::Marks(held, new, duplicate) => {
                self.number(u64::from(held))
                    .pair(b" ", new as u64, duplicate as u64)
            }
            Figure::Least(held) => self.closing(b"least ", u64::from(held)),
            Figure::Refused(number) => self.closing(b"refused ", u64::from(number)),
        }
    }
}
