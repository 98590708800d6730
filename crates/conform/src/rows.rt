// The commands of rows and of the table: ROLL, PUT, RECEIVE, REMOVE, ROWS.
use crate::body::{Body, ROOM};
use crate::fault::Fault;
use crate::messages::BEFORE;
use crate::shown::{Bytes, Fields, Numbered, Value};
use reception::Delivery;
use std::io;
use table::WORDS;
use window::{Row, Verdict};

fn word(verdict: Verdict) -> &'static str {
    match verdict {
        Verdict::New => "new",
        Verdict::Duplicate => "duplicate",
    }
}

pub(crate) fn roll(rt: &impl Print, mut body: Body<'_>) -> Result<(), Fault> {
    let row = body.row()?;
    let rolled = row.rolled(body.number()?);
    print!(rt; "{}{}", word(rolled.verdict), Fields(rolled.row))?;
    Ok(())
}

pub(crate) fn put(
    rt: &impl Print,
    mut body: Body<'_>,
    table: &mut [u64; WORDS],
) -> Result<(), Fault> {
    let number = usize::from(body.number::<u8>()?);
    let row = body.row()?;
    if table::ROWS <= number {
        return Err(Fault::Bad);
    }
    table_rows::put_row(table, number, row);
    rt.print("put")?;
    Ok(())
}

pub(crate) fn receive(
    rt: &impl Print,
    mut body: Body<'_>,
    table: &mut [u64; WORDS],
) -> Result<(), Fault> {
    let delivery = Delivery {
        own: body.number()?,
        link: body.number()?,
        passed: body.flag()?,
        id: body.number()?,
    };
    let room = body.room()?;
    let mut space = [BEFORE; ROOM];
    let buffer = &mut space[..room];
    match reception::receive(delivery, body.left, table, buffer) {
        Ok(received) => print!(rt;
            "{} {}{}{}",
            word(received.verdict),
            received.reply,
            Bytes(buffer),
            Value(received.taken.message)
        )?,
        Err(refusal) => print!(rt; "refused {refusal}{}", Bytes(buffer))?,
    }
    Ok(())
}

pub(crate) fn remove(
    rt: &impl Print,
    mut body: Body<'_>,
    table: &mut [u64; WORDS],
) -> Result<(), Fault> {
    let node = body.number()?;
    let key = body.number()?;
    match reception::remove(table, node, key) {
        Ok(()) => rt.print("removed")?,
        Err(refusal) => print!(rt; "refused {refusal}")?,
    }
    Ok(())
}

// Each row of which any field is not zero.
pub(crate) fn rows(rt: &impl Print, table: &[u64; WORDS]) -> io::Result<()> {
    rt.print("rows")?;
    for (number, words) in table::as_rows(table).iter().enumerate() {
        let row = table::row_from(words);
        if row != Row::FREE {
            rt.print(Numbered(number, row))?;
        }
    }
    Ok(())
}
