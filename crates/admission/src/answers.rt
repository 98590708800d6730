// What receiving answers.
use message::Taken;
use window::Verdict;

// The verdict, with the value, its head and the length of the acknowledgement, 0 if there is none,
// which is no `Option`, as `answer_of` promises that number. The value stands first, so that its
// source lies where a refusal has its offset: an answer, which is this or a refusal, stays in registers.
#[derive(Clone, Copy, Debug, PartialEq, Eq)]
pub struct Received {
    pub taken: Taken,
    pub reply: usize,
    pub verdict: Verdict,
}
