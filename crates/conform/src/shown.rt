// What the fields of a line look like, each with a space before it.
use message::{Message, Refusal};
use std::fmt;
use window::Row;

// A byte string in hexadecimal; a hyphen where it is empty.
#[derive(Clone, Copy)]
pub(crate) struct Bytes<'a>(pub(crate) &'a [u8]);

impl fmt::Display for Bytes<'_> {
    fn fmt<W: fmt::Write>(&self, f: &mut fmt::Formatter<W>) -> fmt::Result {
        if self.0.is_empty() {
            return f.write_str(" -");
        }
        f.write_str(" ")?;
        for byte in self.0 {
            write!(f, "{byte:02x}")?;
        }
        Ok(())
    }
}

// A value. A flag is 0 or 1, and a node stands as on the wire.
#[derive(Clone, Copy)]
pub(crate) struct Value(pub(crate) Message);

impl fmt::Display for Value {
    fn fmt<W: fmt::Write>(&self, f: &mut fmt::Formatter<W>) -> fmt::Result {
        let m = self.0;
        write!(
            f,
            " {} {} {} {} {} {} {:016x} {:016x} {} {} {} {} {} {} {} {}",
            m.version,
            u8::from(m.tunnelled),
            u8::from(m.sourced),
            u8::from(m.destined),
            m.encrypt,
            m.id,
            m.source,
            m.destination,
            m.key,
            u8::from(m.initiator),
            u8::from(m.acknowledges),
            u8::from(m.wants),
            m.kind,
            m.exchange,
            m.profile,
            m.acknowledged
        )
    }
}

// A row's fields.
#[derive(Clone, Copy)]
pub(crate) struct Fields(pub(crate) Row);

impl fmt::Display for Fields {
    fn fmt<W: fmt::Write>(&self, f: &mut fmt::Formatter<W>) -> fmt::Result {
        let row = self.0;
        write!(
            f,
            " {} {:016x} {} {} {}",
            u8::from(row.used),
            row.node,
            row.key,
            row.highest,
            row.marks
        )
    }
}

// A row under its number, as one field: what stands between its fields, and where the number stands, is all that it has of its own.
#[derive(Clone, Copy)]
pub(crate) struct Numbered(pub(crate) usize, pub(crate) Row);

impl fmt::Display for Numbered {
    fn fmt<W: fmt::Write>(&self, f: &mut fmt::Formatter<W>) -> fmt::Result {
        let row = self.1;
        write!(
            f,
            " {}:{}:{:016x}:{}:{}:{}",
            self.0,
            u8::from(row.used),
            row.node,
            row.key,
            row.highest,
            row.marks
        )
    }
}

// What a writer answered, with a word for it where it wrote, and the buffer after it.
#[derive(Clone, Copy)]
pub(crate) struct Written<'a> {
    pub(crate) word: &'a str,
    pub(crate) answer: Result<usize, Refusal>,
    pub(crate) buffer: &'a [u8],
}

impl fmt::Display for Written<'_> {
    fn fmt<W: fmt::Write>(&self, f: &mut fmt::Formatter<W>) -> fmt::Result {
        let word = self.word;
        match self.answer {
            Ok(count) => write!(f, "{word} {count}")?,
            Err(refusal) => write!(f, "refused {refusal}")?,
        }
        write!(f, "{}", Bytes(self.buffer))
    }
}
