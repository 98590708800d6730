// The listing: reads a framed stream from standard input and prints a line for each whole message, and
// at the end the count of the bytes left over.
#![tactic(auto)]

mod input;
mod listing;
mod output;

use output::Output;
use std::io;

// How many bytes are read at most; later bytes are not.
const MOST: usize = 65536;

// Where a read fails, the bytes before it are listed.
fn main(rt: HostRuntime) -> io::Result<()> {
    let mut space = [0; MOST];
    let (count, read) = input::fill(&mut rt.reader(), &mut space);
    let mut output = Output::new(&rt);
    let left = listing::list(&mut output, &space[..count]);
    let printed = output.finish(left);
    read?;
    printed
}
