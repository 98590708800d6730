// The commands of the message format: READ, OUTER, WRITE, UNFRAME, FRAME.
use crate::body::{Body, ROOM};
use crate::fault::Fault;
use crate::shown::{Bytes, Value, Written};
use message::Unframed;
use parts::Parts;
use std::io;

// What every byte of a buffer is before the call.
pub(crate) const BEFORE: u8 = 0xa5;

pub(crate) fn read(rt: &impl Print, message: &[u8]) -> io::Result<()> {
    let reading = reader::read(message);
    let payload = Bytes(parts::payload(message, reading));
    let check = Bytes(parts::check(message, reading));
    match reading {
        Ok(taken) => print!(rt; "taken{}{payload}{check}", Value(taken.message)),
        Err(refusal) => print!(rt; "refused {refusal}{payload}{check}"),
    }
}

pub(crate) fn outer(rt: &impl Print, message: &[u8]) -> io::Result<()> {
    match outer::read_outer(message) {
        Ok((start, len)) => print!(rt; "outer {start} {len}"),
        Err(refusal) => print!(rt; "refused {refusal}"),
    }
}

pub(crate) fn write(rt: &impl Print, mut body: Body<'_>) -> Result<(), Fault> {
    let m = body.value()?;
    let room = body.room()?;
    let len = usize::from(body.number::<u16>()?);
    let parts = Parts {
        payload: body.bytes(len)?,
        check: body.left,
    };
    let mut space = [BEFORE; ROOM];
    let buffer = &mut space[..room];
    let answer = writer::write(m, parts, buffer);
    rt.print(Written {
        word: "wrote",
        answer,
        buffer,
    })?;
    Ok(())
}

pub(crate) fn unframe(rt: &impl Print, stream: &[u8]) -> io::Result<()> {
    let message = Bytes(stream::framed_message(stream));
    let rest = Bytes(stream::framed_rest(stream));
    match stream::unframe(stream) {
        Unframed::Whole(_) => print!(rt; "message{message}{rest}"),
        Unframed::Incomplete(wanted) => print!(rt; "incomplete {wanted}{message}{rest}"),
    }
}

pub(crate) fn frame(rt: &impl Print, mut body: Body<'_>) -> Result<(), Fault> {
    let room = body.room()?;
    let mut space = [BEFORE; ROOM];
    let buffer = &mut space[..room];
    let answer = stream::frame(body.left, buffer);
    rt.print(Written {
        word: "wrote",
        answer,
        buffer,
    })?;
    Ok(())
}
