// Receiving a message, from its bytes to the verdict.
ghost use Rattle.std.specs.Prelude.{◌≡◌, false, length};
ghost use Rattle.message.specs.Order.{first, passed};
ghost use Rattle.message.specs.Refusals.{bad_source};
ghost use Rattle.admission.specs.Admission.{table_by, buffer_by};
ghost use Rattle.reception.specs.Receiving.{beside, sender_of, not_ours, unchecked, delivery_order, answer_to, deliver_of, receive_of, receive_table, receive_buffer};

use admission::Received;
use message::{Message, Reason, Refusal, Taken, layout};
use reply::Reply;
use table::WORDS;

// How a message came: our own node, the node that the link names, the check result, and the message id of an
// acknowledgement.
#[derive(Clone, Copy, Debug, PartialEq, Eq)]
pub struct Delivery {
    pub own: u64,
    pub link: u64,
    pub passed: bool,
    pub id: u32,
}

// 16
fn not_ours(own: u64, m: Message) -> bool
    ensures { result ≡ not_ours own m }
{
    if !m.destined {
        return false;
    }
    if m.destination == own {
        return false;
    }
    m.destination != layout::NODE_ANY
}

// 18
fn unchecked(passed: bool, m: Message) -> bool
    ensures { result ≡ unchecked passed m }
{
    (m.encrypt == layout::ENCRYPTED) & !passed
}

// The sender: the message's own source, else the link's node.
fn sender_of(link: u64, m: Message) -> u64
    ensures { result ≡ sender_of link m }
{
    if m.sourced { m.source } else { link }
}

// What receiver, sender and check decide: 16 to 18. A source that is present is somebody's, so a sender who
// is nobody is the link's: 17.
#[tactic(auto, using(crate::proofs::Orders::link_is_sender), unfolding(crate::specs::Receiving::delivery_order))]
fn test_delivery(delivery: Delivery, sender: u64, m: Message) -> Result<(), Reason>
    requires { (sender ≡ sender_of delivery.link m) × (bad_source m.sourced m.source ≡ false) }
    ensures { result ≡ passed (first (delivery_order delivery.own delivery.link delivery.passed m)) }
{
    if not_ours(delivery.own, m) {
        return Err(Reason::NotOurs);
    }
    if conditions::is_nobody(sender) {
        return Err(Reason::Sender);
    }
    if unchecked(delivery.passed, m) {
        return Err(Reason::Check);
    }
    Ok(())
}

// A message that was read: 16 to 18, and then the rest.
fn deliver(
    delivery: Delivery,
    taken: Taken,
    table: &mut [u64; WORDS],
    out: &mut [u8],
) -> Result<Received, Refusal>
    requires { bad_source taken.message.sourced taken.message.source ≡ false }
    ensures result { result ≡ deliver_of (beside delivery.own delivery.link delivery.passed delivery.id (length out.old)) taken table.old }
    ensures table { table.new ≡ table_by result (sender_of delivery.link taken.message) taken.message table.old }
    ensures buffer { out.new ≡ buffer_by result (answer_to (beside delivery.own delivery.link delivery.passed delivery.id (length out.old)) taken.message) taken.message out.old }
{
    let sender = sender_of(delivery.link, taken.message);
    test_delivery(delivery, sender, taken.message)?;
    let reply = Reply {
        own: delivery.own,
        sender,
        id: delivery.id,
    };
    admission::admit(reply, taken, table, out)
}

// Receives a message. In this order:
// - 15, then whatever reading refuses, with its byte, 16, 17, 18;
// - where an acknowledgement is wanted, 22 and 19;
// - 20, before anything is written.
// Then the acknowledgement stands at the front of `out`, and if the message is new its row in the
// table is moved or opened. A refusal leaves all of the table and of the buffer as they were.
pub fn receive(
    delivery: Delivery,
    bytes: &[u8],
    table: &mut [u64; WORDS],
    out: &mut [u8],
) -> Result<Received, Refusal>
    ensures result { result ≡ receive_of (beside delivery.own delivery.link delivery.passed delivery.id (length out.old)) bytes.now table.old }
    ensures table { table.new ≡ receive_table (beside delivery.own delivery.link delivery.passed delivery.id (length out.old)) bytes.now table.old }
    ensures buffer { out.new ≡ receive_buffer (beside delivery.own delivery.link delivery.passed delivery.id (length out.old)) bytes.now table.old out.old }
{
    if conditions::is_nobody(delivery.own) {
        return Err(Reason::OwnNode.into());
    }
    let taken = reader::read(bytes)?;
    deliver(delivery, taken, table, out)
}
