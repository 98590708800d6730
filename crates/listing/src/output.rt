// The lines that are printed.
use lines::Said;
use std::io;

// Where lines are printed, and whether all of them were. After a write that fails nothing is printed: the messages that follow
// are still received.
#[derive(Drop)]
pub(crate) struct Output<'a, P> {
    rt: &'a P,
    printed: io::Result<()>,
}

impl<'a, P: Print> Output<'a, P> {
    pub(crate) fn new(rt: &'a P) -> Output<'a, P> {
        Output {
            rt,
            printed: Ok(()),
        }
    }

    fn print(&mut self, text: &[u8]) {
        if self.printed.is_ok() {
            self.printed = self.rt.write_all(text);
        }
    }

    // The line of a message.
    pub(crate) fn line(&mut self, ordinal: u64, said: Said) {
        let mut text = [0; lines::LINE];
        let count = lines::line(ordinal, said, &mut text);
        self.print(&text[..count]);
    }

    // The last line. There is no `From` of a `usize` for its number.
    pub(crate) fn finish(mut self, left: usize) -> io::Result<()> {
        let mut text = [0; lines::LINE];
        let count = lines::last(left as u64, &mut text);
        self.print(&text[..count]);
        self.printed
    }
}
