// Receiving a message.
ghost use Rattle.std.specs.Prelude.{◌≡◌, length};
ghost use Rattle.reception.specs.Receiving.{beside, receive_of, receive_table, receive_buffer};
ghost use Rattle.message.specs.Answers.{number_in};
ghost use Rattle.places.specs.Answers.{offset_after};
ghost use Rattle.gateway.specs.Receiving.{received_after};

use places::{FIELDS, Fields, TABLE_WORDS};
use reception::Delivery;
use wire::Number;

// Receives a message: the fields say its value, its parts, the verdict and the length of the
// acknowledgement, which stands at the front of `out`. Whatever receiving refuses, with the byte at fault
// in `offset`, 0 where the refusal is about none; otherwise `offset` stays as it was.
#[unsafe(no_mangle)]
pub extern "C" fn kabizarle_receive(
    own: u64,
    link: u64,
    passed: bool,
    id: u32,
    bytes: &[u8],
    table: &mut [u64; TABLE_WORDS],
    out: &mut [u8],
    fields: &mut [u64; FIELDS],
    offset: &mut u64,
) -> u32
    ensures result { result ≡ number_in (receive_of (beside own link passed id (length out.old)) bytes.now table.old) }
    ensures table { table.new ≡ receive_table (beside own link passed id (length out.old)) bytes.now table.old }
    ensures buffer { out.new ≡ receive_buffer (beside own link passed id (length out.old)) bytes.now table.old out.old }
    ensures fields { fields.new ≡ received_after (receive_of (beside own link passed id (length out.old)) bytes.now table.old) (length bytes.now) fields.old }
    ensures offset { offset.new ≡ offset_after (receive_of (beside own link passed id (length out.old)) bytes.now table.old) offset.old }
{
    let delivery = Delivery {
        own,
        link,
        passed,
        id,
    };
    match reception::receive(delivery, bytes, table, out) {
        Ok(received) => {
            let heard = Fields {
                taken: received.taken,
                header: u16::get(bytes),
                size: bytes.len(),
                verdict: places::verdict_number(received.verdict),
                reply: received.reply,
            };
            heard.store(fields);
            places::NO_REFUSAL
        }
        Err(refusal) => places::refused(refusal, offset),
    }
}
