// How wide a window must be: what numbers of marks make of ids that were recorded from one encrypted sender, and the least number with
// which every verdict is that of 63 (request K5).
#![tactic(auto)]

ghost use Rattle.std.specs.Prelude.{◌≡◌, ◌^◌, ◌<◌, ◌≤◌, max, min};
ghost use Rattle.window.specs.Windows.{most_marks};
ghost use Rattle.widths.specs.Trial.{number, ids_of, tally_of, trial_of, lost_of};
ghost use Rattle.widths.specs.Runs.{Passed, run_after, tallied_of};

use window::Window;
use wire::Number;

// The bytes of an id, low byte first.
pub const ID: usize = 4;

// The most bytes that a trial takes.
pub const MOST_BYTES: usize = 65_536;

// Why a trial is refused.
#[derive(Clone, Copy, Debug, PartialEq, Eq)]
pub enum Refusal {
    // Bytes that are no whole number of ids, or too many of them.
    BadIds = 28,
}

impl Refusal {
    // Its number. `Reason::number` of `message` is this cast too: a cast is of one enum, and no trait is over all enums.
    pub fn number(self) -> u8
        ensures { result ≡ number self }
    {
        self as u8
    }
}

// The numbers of marks that a trial tries, beside the most that a window has.
pub const FEW: u32 = 15;

pub const MORE: u32 = 31;

// What a number of marks makes of the ids: how many are new and how many are duplicates.
#[derive(Clone, Copy, Debug, PartialEq, Eq)]
pub struct Tally {
    pub held: u32,
    pub new: usize,
    pub duplicate: usize,
}

// What a trial answers: the tallies of 15, 31 and 63 marks, and the least number of marks with the verdicts of 63.
#[derive(Clone, Copy, Debug, PartialEq, Eq)]
pub struct Tried {
    pub few: Tally,
    pub more: Tally,
    pub most: Tally,
    pub least: u32,
}

// The ids so far: their window of 63 marks, how many it found new, how many of these lay past the reach of a few marks and how many beyond
// that of more, which would have lost them, and how far behind the farthest lay.
#[derive(Clone, Copy)]
struct Run {
    window: Window,
    found: usize,
    past: usize,
    beyond: usize,
    farthest: u32,
}

// 1 for a new id that lay further behind than there are marks, which they would have lost; else 0.
fn lost(held: u32, late: u32) -> usize
    ensures { (result ≡ lost_of held late) × (result ≤ 1) }
{
    usize::from(held < late)
}

impl Run {
    // Before the first id.
    const START: Run = Run {
        window: Window {
            used: false,
            highest: 0,
            marks: 0,
        },
        found: 0,
        past: 0,
        beyond: 0,
        farthest: 0,
    };

    // One id more.
    fn hear(&mut self, few: u32, more: u32, id: u32)
        requires { (self.old.found < 2 ^ 63) × (self.old.past < 2 ^ 63) × (self.old.beyond < 2 ^ 63) }
        ensures { self.new ≡ run_after few more self.old id }
    {
        if let Some(heard) = self.window.heard(Window::MOST, id) {
            self.window = Window {
                used: true,
                highest: heard.highest,
                marks: heard.marks,
            };
            self.found += 1;
            self.past += lost(few, heard.late);
            self.beyond += lost(more, heard.late);
            self.farthest = self.farthest.max(heard.late);
        }
    }
}

// One pass of 63 marks over the ids. Bytes at the end that are no whole id do not count.
fn pass(few: u32, more: u32, ids: &[u8]) -> Run
    ensures { Passed few more (ids_of ids.now) result }
{
    let mut run = Run::START;
    for id in ids.as_chunks::<ID>().0 {
        run.hear(few, more, u32::get(id));
    }
    run
}

// The tally of so many new ids among all.
fn tallied(held: u32, new: usize, all: usize) -> Tally
    requires { new ≤ all }
    ensures { result ≡ tallied_of held new all }
{
    Tally {
        held,
        new,
        duplicate: all - new,
    }
}

// What `held` marks make of the ids, more than 63 counting as 63. Bytes at the end that are no whole id do not count.
pub fn count(held: u32, ids: &[u8]) -> Tally
    ensures { result ≡ tally_of (min held most_marks) (ids_of ids.now) }
{
    let held = held.min(Window::MOST);
    let run = pass(held, held, ids);
    tallied(held, run.found - run.past, ids.len() / ID)
}

// Tries 15, 31 and 63 marks on the ids. Refusal 28.
pub fn trial(ids: &[u8]) -> Result<Tried, Refusal>
    ensures { result ≡ trial_of ids.now }
{
    let len = ids.len();
    if (len % ID != 0) | (MOST_BYTES < len) {
        return Err(Refusal::BadIds);
    }
    let run = pass(FEW, MORE, ids);
    let all = len / ID;
    Ok(Tried {
        few: tallied(FEW, run.found - run.past, all),
        more: tallied(MORE, run.found - run.beyond, all),
        most: tallied(Window::MOST, run.found, all),
        least: run.farthest.max(1),
    })
}
