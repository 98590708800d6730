// The messages of a stream, received one after another, with a line for each.
ghost use Rattle.std.specs.Prelude.{◌≡◌, ◌<◌, length, drop, MatchOption};
ghost use Rattle.listing.specs.Listing.{said_of, heard_of, heard_table, passed_of, table_past, left_of};

use crate::output::Output;
use lines::Said;
use message::{Refusal, Unframed};
use reception::{Delivery, Received};
use table::WORDS;
use window::Verdict;

// The own node.
const OWN: u64 = 0x0200_0000_0000_0001;

// How each message comes: of the link's node nothing is known, the checks count as passed, and acknowledgements have the id 0.
const DELIVERY: Delivery = Delivery {
    own: OWN,
    link: 0,
    passed: true,
    id: 0,
};

// The room for an acknowledgement, which is not printed.
const ROOM: usize = 64;

// What the line says of an answer.
fn said(answer: Result<Received, Refusal>) -> Said
    ensures { result ≡ said_of answer }
{
    match answer {
        Ok(received) => match received.verdict {
            Verdict::New => Said::New(received.taken.message.id),
            Verdict::Duplicate => Said::Duplicate(received.taken.message.id),
        },
        Err(refusal) => Said::Refused(refusal.reason.number(), refusal.offset),
    }
}

// Receives a message: what the line says of it. A new message moves its row.
fn hear(message: &[u8], table: &mut [u64; WORDS]) -> Said
    ensures result { result ≡ heard_of message.now table.old }
    ensures table { table.new ≡ heard_table message.now table.old }
{
    let mut room = [0u8; ROOM];
    said(reception::receive(DELIVERY, message, table, &mut room))
}

// Shows the message at the front of a stream, if it is whole: its line is printed. Gives what stands after it.
fn step<'a>(
    output: &mut Output<'_, impl Print>,
    stream: &'a [u8],
    ordinal: u64,
    table: &mut [u64; WORDS],
) -> Option<&'a [u8]>
    ensures rest { MatchOption result (passed_of stream.now ≡ 0) (λ rest. (0 < passed_of stream.now) × (rest.now ≡ drop (passed_of stream.now) stream.now)) }
    ensures table { table.new ≡ table_past stream.now table.old }
{
    match stream::unframe(stream) {
        Unframed::Whole(_) => {
            output.line(ordinal, hear(stream::framed_message(stream), table));
            Some(stream::framed_rest(stream))
        }
        Unframed::Incomplete(_) => None,
    }
}

// Lists a stream, from an empty table on. Gives the count of the bytes left over.
#[tactic(auto, using(crate::proofs::Left::shorter, crate::proofs::Left::left_after, crate::proofs::Left::left_done))]
pub(crate) fn list(output: &mut Output<'_, impl Print>, stream: &[u8]) -> usize
    ensures { result ≡ left_of stream.now }
{
    let mut table = [0; WORDS];
    let mut rest = stream;
    for ordinal in 1.. {
        let Some(after) = step(output, rest, ordinal, &mut table) else {
            break;
        };
        rest = after;
    }
    rest.len()
}
