// The standalone acknowledgement of a message: its value, and what writing it would answer. Its own
// order of refusals is that of writing, less what cannot hold of it.
ghost use Rattle.std.specs.Prelude.{◌≡◌, []};
ghost use Rattle.message.specs.Order.{first};
ghost use Rattle.message.specs.Refusals.{total};
ghost use Rattle.message.specs.Answers.{writing};
ghost use Rattle.reply.specs.Acknowledgement.{acknowledgement_of, acknowledging};
ghost use Rattle.reply.specs.Planning.{planned_of};
ghost use Rattle.reply.specs.Steps.{acknowledging_order};

use crate::planning;
use message::{Message, Reason, Refusal, layout};

// The message type of an acknowledgement, within the profile of all nodes.
const KIND: u8 = 2;

const PROFILE: u32 = 0;

// The ends of a reply and its message id: from the own node to the sender, under an id of the own node.
#[derive(Clone, Copy, Debug, PartialEq, Eq)]
pub struct Reply {
    pub own: u64,
    pub sender: u64,
    pub id: u32,
}

impl Reply {
    // The value of the acknowledgement of `m`.
    #[tactic(auto, unfolding(crate::specs::Acknowledgement::acknowledgement_of))]
    pub fn acknowledgement(self, m: Message) -> Message
        ensures { result ≡ acknowledgement_of self.own self.sender self.id m }
    {
        let key = if m.encrypt == layout::ENCRYPTED {
            m.key
        } else {
            0
        };
        Message {
            version: layout::VERSION_2,
            tunnelled: false,
            sourced: true,
            destined: true,
            encrypt: m.encrypt,
            id: self.id,
            source: self.own,
            destination: self.sender,
            key,
            initiator: !m.initiator,
            acknowledges: true,
            wants: false,
            kind: KIND,
            exchange: m.exchange,
            profile: PROFILE,
            acknowledged: m.id,
        }
    }

    // What `writer::acknowledge` would answer with a buffer of `room` bytes. No buffer is touched.
    #[tactic(auto, using(crate::proofs::Steps::judged_is))]
    pub fn would_acknowledge(self, m: Message, room: usize) -> Result<usize, Refusal>
        ensures { result ≡ acknowledging (acknowledgement_of self.own self.sender self.id m) room }
    {
        judged(self.acknowledgement(m), room)
    }

    // What a message is answered with, given a buffer of `room` bytes: 0 bytes where it wants no
    // acknowledgement, a number and no `Option`, as `planned_of` promises it, and 22 or 19 where it
    // cannot be written. Nothing is written here.
    #[tactic(auto, unfolding(crate::specs::Planning::planned_of))]
    pub fn plan(self, m: Message, room: usize) -> Result<usize, Refusal>
        ensures { result ≡ planned_of m.wants (acknowledgement_of self.own self.sender self.id m) room }
    {
        if !m.wants {
            return Ok(0);
        }
        planning::with_reason(self.would_acknowledge(m, room))
    }
}

// What writing the value of an acknowledgement answers, by its own order. Of any other value it judges encrypt
// type, address and room alone: such a one is for `judge::would_write`.
#[tactic(auto, unfolding(crate::specs::Steps::acknowledging_order, message::specs::Refusals::address_order, message::specs::Refusals::total))]
pub fn judged(value: Message, room: usize) -> Result<usize, Refusal>
    ensures { result ≡ writing (first (acknowledging_order value room)) (total value []) }
{
    if conditions::bad_encrypt(value.encrypt) {
        return Err(Reason::Encrypt.into());
    }
    conditions::test_address(value)?;
    let total = value.head_length() + value.check_length();
    if room < total {
        return Err(Reason::NoRoom.into());
    }
    Ok(total)
}
