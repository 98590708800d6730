// What an answer comes to for a caller in another language: a number, and what goes to a lent place.
ghost use Rattle.std.specs.Prelude.{◌≡◌};
ghost use Rattle.message.specs.Reasons.{number};
ghost use Rattle.message.specs.Answers.{number_in};
ghost use Rattle.places.specs.Answers.{count_after, verdict_number};

use message::Refusal;
use window::Verdict;

// The number of a refusal; its offset goes to where that is wanted. Here and below by a cast: of a `usize` there is no
// `From` to a `u64`.
pub fn refused(refusal: Refusal, offset: &mut u64) -> u32
    ensures result { result ≡ number refusal.reason }
    ensures offset { offset.new ≡ refusal.offset }
{
    *offset = refusal.offset as u64;
    u32::from(refusal)
}

// The number of an answer, 0 where it refuses nothing; the count that it gives goes to where that is wanted.
pub fn settle(answer: Result<usize, Refusal>, count: &mut u64) -> u32
    ensures result { result ≡ number_in answer }
    ensures count { count.new ≡ count_after answer count.old }
{
    match answer {
        Ok(given) => {
            *count = given as u64;
            crate::NO_REFUSAL
        }
        Err(refusal) => u32::from(refusal),
    }
}

// The number of a verdict.
pub fn verdict_number(verdict: Verdict) -> u64
    ensures { result ≡ verdict_number verdict }
{
    match verdict {
        Verdict::New => crate::NEW,
        Verdict::Duplicate => crate::DUPLICATE,
    }
}
