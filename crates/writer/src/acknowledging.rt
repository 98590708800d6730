// The standalone acknowledgement of a message at the front of a buffer.
ghost use Rattle.std.specs.Prelude.{◌≡◌, length};
ghost use Rattle.wire.specs.Bytes.{placed};
ghost use Rattle.message.specs.Answers.{buffer_after};
ghost use Rattle.reply.specs.Acknowledgement.{acknowledgement_of, zeros, acknowledgement_bytes, acknowledging};

use crate::writing;
use message::{Message, Refusal, layout};
use reply::Reply;

// Blank check bytes, for the module to fill, into the first bytes. Where the slice has fewer, it stays as it was.
#[tactic(auto, using(wire::proofs::Fronts::placed_whole, wire::proofs::Fronts::placed_short))]
fn put_blank(out: &mut [u8])
    ensures { out.new ≡ placed (zeros 20) out.old }
{
    if let Some(check) = out.first_chunk_mut::<{ layout::CHECK }>() {
        *check = [0; layout::CHECK];
    }
}

// The acknowledgement of `m` at the front of a buffer, from the own node to the sender, under its own
// id; the buffer's other bytes stay as they were. Or the refusal, and all of the buffer as it was.
pub fn acknowledge(reply: Reply, m: Message, out: &mut [u8]) -> Result<usize, Refusal>
    ensures { (result ≡ acknowledging (acknowledgement_of reply.own reply.sender reply.id m) (length out.old)) × (out.new ≡ buffer_after result (acknowledgement_bytes (acknowledgement_of reply.own reply.sender reply.id m)) out.old) }
{
    let value = reply.acknowledgement(m);
    let total = reply::judged(value, out.len())?;
    let (head, rest) = out.split_at_mut(value.head_length());
    writing::store_head(head, value);
    let (check, _) = rest.split_at_mut(value.check_length());
    put_blank(check);
    Ok(total)
}
