// The commands of saved rows: SAVE, RESTORE.
use crate::body::{Body, ROOM};
use crate::fault::Fault;
use crate::messages::BEFORE;
use crate::shown::Written;
use std::io;
use table::WORDS;

pub(crate) fn save(rt: &impl Print, mut body: Body<'_>, table: &[u64; WORDS]) -> Result<(), Fault> {
    let room = body.room()?;
    let mut space = [BEFORE; ROOM];
    let buffer = &mut space[..room];
    let answer = saving::save(table, buffer);
    rt.print(Written {
        word: "saved",
        answer,
        buffer,
    })?;
    Ok(())
}

pub(crate) fn restore(rt: &impl Print, bytes: &[u8], table: &mut [u64; WORDS]) -> io::Result<()> {
    match restoring::restore(table, bytes) {
        Ok(count) => print!(rt; "restored {count}"),
        Err(refusal) => print!(rt; "refused {refusal}"),
    }
}
