// The trial: reads ids that were recorded from one encrypted sender from standard input. Prints a line for each of three numbers of marks,
// with how many ids are new by it and how many are duplicates, and last the least number; or the refusal.
#![tactic(auto)]

ghost use Rattle.std.specs.Prelude.{◌≡◌};
ghost use Rattle.trial.specs.Lines.{tally_line};

mod input;

use lines::Figure;
use std::io;
use widths::{Refusal, Tally, Tried};

// One byte more than a trial takes is asked for, so that it is noticed where there is one.
const MOST: usize = widths::MOST_BYTES + 1;

// What the line of a tally says.
fn line_of(tally: Tally) -> Figure
    ensures { result ≡ tally_line tally }
{
    Figure::Marks(tally.held, tally.new, tally.duplicate)
}

// Prints the line of a figure. Fails where it cannot be written.
fn show(rt: &impl Print, figure: Figure) -> io::Result<()> {
    let mut text = [0u8; lines::LINE];
    let count = lines::figures(figure, &mut text);
    rt.write_all(&text[..count])
}

// Prints the lines of an answer, in their order. After a line that fails none is printed.
fn tell(rt: &impl Print, answer: Result<Tried, Refusal>) -> io::Result<()> {
    match answer {
        Ok(tried) => {
            for tally in [tried.few, tried.more, tried.most] {
                show(rt, line_of(tally))?;
            }
            show(rt, Figure::Least(tried.least))
        }
        Err(refusal) => show(rt, Figure::Refused(refusal.number())),
    }
}

// Up to 65,537 bytes are read; later bytes are not. Where a read fails, the bytes before it are answered.
fn main(rt: HostRuntime) -> io::Result<()> {
    let mut space = [0; MOST];
    let (count, read) = input::fill(&mut rt.reader(), &mut space);
    tell(&rt, widths::trial(&space[..count]))?;
    read
}
