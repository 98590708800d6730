// Why an acknowledgement cannot be written.
ghost use Rattle.std.specs.Prelude.{◌≡◌};
ghost use Rattle.reply.specs.Planning.{reasoned_by};

use message::{Numbered, Reason, Refusal};

// The writer's answer with its reason: 19 stays, every other number is 22; at no byte, whatever it was. What refuses may
// be a refusal or any number.
pub fn with_reason<E: Numbered>(answer: Result<usize, E>) -> Result<usize, Refusal>
    ensures { result ≡ reasoned_by E.numbered answer }
{
    answer.map_err(|refused| {
        if refused.number() == Reason::NoRoom.number() {
            Reason::NoRoom.into()
        } else {
            Reason::Unwritable.into()
        }
    })
}
