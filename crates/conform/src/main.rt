// Makes every entry point answer to commands on standard input, one line for each. The table is empty at
// the start.
#![tactic(auto)]

mod body;
mod command;
mod commands;
mod fault;
mod input;
mod messages;
mod rows;
mod saved;
mod shown;

use body::Body;
use command::Command;
use commands::{Commands, Cut};
use fault::Fault;
use std::io;
use table::WORDS;

// How many commands are answered at most.
const MOST: usize = 16_000_000;

// Answers a command without the end of its line. Its first byte names it, and the rest is its body.
fn run(rt: &impl Print, bytes: &[u8], table: &mut [u64; WORDS]) -> Result<(), Fault> {
    let mut body = Body { left: bytes };
    match Command::try_from(body.number::<u8>()?)? {
        Command::Read => messages::read(rt, body.left)?,
        Command::Outer => messages::outer(rt, body.left)?,
        Command::Write => messages::write(rt, body)?,
        Command::Unframe => messages::unframe(rt, body.left)?,
        Command::Frame => messages::frame(rt, body)?,
        Command::Roll => rows::roll(rt, body)?,
        Command::Empty => {
            *table = [0; WORDS];
            rt.print("empty")?;
        }
        Command::Put => rows::put(rt, body, table)?,
        Command::Receive => rows::receive(rt, body, table)?,
        Command::Remove => rows::remove(rt, body, table)?,
        Command::Rows => rows::rows(rt, table)?,
        Command::Save => saved::save(rt, body, table)?,
        Command::Restore => saved::restore(rt, body.left, table)?,
    }
    Ok(())
}

// Answers a command by a line.
fn answer(rt: &impl Print, bytes: &[u8], table: &mut [u64; WORDS]) -> io::Result<()> {
    match run(rt, bytes, table) {
        Ok(()) => rt.println(""),
        Err(Fault::Bad) => rt.println("bad"),
        Err(Fault::Print(error)) => Err(error),
    }
}

// Answers commands until the input ends, or MOST of them.
fn main(rt: HostRuntime) -> io::Result<()> {
    let mut commands = Commands::new(rt.reader());
    let mut table = [0; WORDS];
    for _ in 0..MOST {
        match commands.next() {
            Some(Ok(bytes)) => answer(&rt, bytes, &mut table)?,
            Some(Err(Cut)) => {
                rt.println("cut")?;
                break;
            }
            None => break,
        }
    }
    commands.finish()
}
