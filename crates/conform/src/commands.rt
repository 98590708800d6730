// The commands on standard input: each is a length of two bytes, low byte first, and that many bytes.
use crate::input;
use std::io;
use std::io::Read;
use wire::Number;

// The room for a command, whose length has two bytes.
const SPACE: usize = 65536;

// The end of the input cuts a command short.
#[derive(Clone, Copy)]
pub(crate) struct Cut;

// Where commands are read from, the bytes that were read last, and whether every read succeeded.
#[derive(Drop)]
pub(crate) struct Commands<R> {
    reader: R,
    space: [u8; SPACE],
    read: io::Result<()>,
}

impl<R: Read + Drop> Commands<R> {
    pub(crate) fn new(reader: R) -> Commands<R> {
        Commands {
            reader,
            space: [0; SPACE],
            read: Ok(()),
        }
    }

    // Reads so many bytes, or fewer where the input ends before: gives how many. A read that fails ends it too, and is kept.
    fn fill(&mut self, len: u16) -> usize {
        let space = &mut self.space[..];
        let (count, read) = input::fill(&mut self.reader, &mut space[..usize::from(len)]);
        if read.is_err() {
            self.read = read;
        }
        count
    }

    // The next command; none at the end of the input.
    pub(crate) fn next(&mut self) -> Option<Result<&[u8], Cut>> {
        let head = self.fill(2);
        if head == 0 {
            return None;
        }
        let len = u16::get(&self.space);
        let count = self.fill(len);
        if head < 2 || count < usize::from(len) {
            return Some(Err(Cut));
        }
        Some(Ok(&self.space[..usize::from(len)]))
    }

    // Whether every read succeeded.
    pub(crate) fn finish(self) -> io::Result<()> {
        self.read
    }
}
