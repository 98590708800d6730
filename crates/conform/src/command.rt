// The commands, each under the number that names it.
use crate::fault::Bad;

#[derive(Clone, Copy)]
pub(crate) enum Command {
    Read,
    Outer,
    Write,
    Unframe,
    Frame,
    Roll,
    Empty,
    Put,
    Receive,
    Remove,
    Rows,
    Save,
    Restore,
}

impl TryFrom<u8> for Command {
    type Error = Bad;

    fn try_from(name: u8) -> Result<Command, Bad> {
        match name {
            1 => Ok(Command::Read),
            2 => Ok(Command::Outer),
            3 => Ok(Command::Write),
            4 => Ok(Command::Unframe),
            5 => Ok(Command::Frame),
            6 => Ok(Command::Roll),
            7 => Ok(Command::Empty),
            8 => Ok(Command::Put),
            9 => Ok(Command::Receive),
            10 => Ok(Command::Remove),
            11 => Ok(Command::Rows),
            12 => Ok(Command::Save),
            13 => Ok(Command::Restore),
            _ => Err(Bad),
        }
    }
}
