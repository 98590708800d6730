// What is left of a command: its fields are taken from the front, one after another.
ghost use Rattle.std.specs.Prelude.{◌≤◌, IfOk};

use crate::fault::Bad;
use message::Message;
use window::Row;
use wire::Number;

// The longest buffer that a command may ask for.
pub(crate) const ROOM: usize = 1300;

#[derive(Drop)]
pub(crate) struct Body<'a> {
    pub(crate) left: &'a [u8],
}

impl<'a> Body<'a> {
    // So many bytes.
    pub(crate) fn bytes(&mut self, len: usize) -> Result<&'a [u8], Bad> {
        let Some((bytes, left)) = self.left.split_at_checked(len) else {
            return Err(Bad);
        };
        self.left = left;
        Ok(bytes)
    }

    pub(crate) fn number<N: Number>(&mut self) -> Result<N, Bad> {
        Ok(N::get(self.bytes(N::SIZE)?))
    }

    // Zero is no, anything else yes.
    pub(crate) fn flag(&mut self) -> Result<bool, Bad> {
        Ok(self.number::<u8>()? != 0)
    }

    // How long a buffer is to be.
    pub(crate) fn room(&mut self) -> Result<usize, Bad>
        ensures { IfOk result (λ room. room ≤ 1300) }
    {
        let room = usize::from(self.number::<u16>()?);
        if ROOM < room {
            return Err(Bad);
        }
        Ok(room)
    }

    pub(crate) fn value(&mut self) -> Result<Message, Bad> {
        Ok(Message {
            version: self.number()?,
            tunnelled: self.flag()?,
            sourced: self.flag()?,
            destined: self.flag()?,
            encrypt: self.number()?,
            id: self.number()?,
            source: self.number()?,
            destination: self.number()?,
            key: self.number()?,
            initiator: self.flag()?,
            acknowledges: self.flag()?,
            wants: self.flag()?,
            kind: self.number()?,
            exchange: self.number()?,
            profile: self.number()?,
            acknowledged: self.number()?,
        })
    }

    pub(crate) fn row(&mut self) -> Result<Row, Bad> {
        Ok(Row {
            used: self.flag()?,
            node: self.number()?,
            key: self.number()?,
            highest: self.number()?,
            marks: self.number()?,
        })
    }
}
