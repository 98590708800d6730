// The text of the listing and of the trial. The listing has a line for each message, and the last line. The
// trial has a line for each number of marks and one for the least number, or one for its refusal. A text
// goes to the front of a buffer of LINE bytes, which holds the longest. Each function gives the count of its
// bytes and no slice of them, since the laws `one_line`, `one_last` and `one_figures` speak of the count.
#![tactic(auto)]

mod appends;

ghost use Rattle.std.specs.Prelude.{◌≡◌, ◌++◌, length, drop};
ghost use Rattle.io.specs.Counts.{IsPrefixLen};
ghost use Rattle.lines.specs.Lines.{line_text, last_text, figures_text};

use appends::Text;

// The room for a line: for a refused message 71 bytes, with 20 digits counted for each of its three
// numbers, as for any number.
pub const LINE: usize = 72;

// What a line says of a message: new or a duplicate, with its message id; or refused, with the number
// of the refusal and its offset. It is no `Result` of an error enum: `line` takes every number.
#[derive(Clone, Copy)]
pub enum Said {
    New(u32),
    Duplicate(u32),
    Refused(u8, usize),
}

// The line of a message, with its ordinal before it, at the front of the buffer; the buffer's other
// bytes stay as they were. Gives the length of the line.
pub fn line(ordinal: u64, said: Said, out: &mut [u8; LINE]) -> usize
    ensures text { (result ≡ length (line_text ordinal said)) × (out.new ≡ line_text ordinal said ++ drop result out.old) }
    ensures count { IsPrefixLen result out.new }
{
    Text { out, len: 0 }.line(ordinal, said).len
}

// The last line, with the count of leftover bytes, at the front of the buffer; the buffer's other bytes
// stay as they were. Gives the length of the line.
pub fn last(left: u64, out: &mut [u8; LINE]) -> usize
    ensures text { (result ≡ length (last_text left)) × (out.new ≡ last_text left ++ drop result out.old) }
    ensures count { IsPrefixLen result out.new }
{
    Text { out, len: 0 }.closing(b"end ", left).len
}

// What a line of the trial says: a number of marks, with how many ids are new by it and how many are
// duplicates; the least number of marks; or refused, with the number of the refusal. It is no `Result` of an
// error enum: `figures` takes every number.
#[derive(Clone, Copy)]
pub enum Figure {
    Marks(u32, usize, usize),
    Least(u32),
    Refused(u8),
}

// A line of the trial, at the front of the buffer; the buffer's other bytes stay as they were. Gives the
// length of the line.
pub fn figures(figure: Figure, out: &mut [u8; LINE]) -> usize
    ensures text { (result ≡ length (figures_text figure)) × (out.new ≡ figures_text figure ++ drop result out.old) }
    ensures count { IsPrefixLen result out.new }
{
    Text { out, len: 0 }.figure(figure).len
}
