// The acknowledgement that a message may want, written.
ghost use Rattle.std.specs.Prelude.{◌≡◌, length};
ghost use Rattle.reply.specs.Acknowledgement.{acknowledgement_of};
ghost use Rattle.reply.specs.Planning.{planned_of};
ghost use Rattle.admission.specs.Acknowledgement.{answered_by};

use message::{Message, Refusal};
use reply::Reply;

// Writes the acknowledgement of a message at the front of a buffer, if it wants one; the other bytes
// stay. Gives its length, 0 where there is none (`planned_of`). Or 22 or 19, and all of the buffer as it was.
#[tactic(auto, using(crate::proofs::Answered::stored, crate::proofs::Answered::unstored, crate::proofs::Answered::planned, crate::proofs::Answered::unplanned))]
pub(crate) fn acknowledge(reply: Reply, m: Message, out: &mut [u8]) -> Result<usize, Refusal>
    ensures { (result ≡ planned_of m.wants (acknowledgement_of reply.own reply.sender reply.id m) (length out.old)) × (out.new ≡ answered_by m.wants (acknowledgement_of reply.own reply.sender reply.id m) out.old) }
{
    if !m.wants {
        return Ok(0);
    }
    reply::with_reason(writer::acknowledge(reply, m, out))
}
