// The input, read into memory that the caller has. Each program that reads has this for itself; for other crates there is `input::fill`.
// No contract says what a stream gives, so more than one outcome fits that of `fill`.
ghost use Rattle.std.specs.Prelude.{◌≤◌, ◌<◌, length, take, OnOk};
ghost use Rattle.std.specs.Io.KnownBytes.{Consumes, IsAtEnd};

use std::io;
use std::io::Read;

// Reads until the space is full, the input ends or a read fails. Gives how many bytes were read, which stand at the front of the space, and
// whether every read succeeded. There is no heap, and `read_exact` of the library does not say how many bytes came before an end: so the
// loop stands here, and counts as that of the library does.
#[tactic(auto, using(crate::proofs::Filling::filled))]
pub(crate) fn fill<R: Read>(reader: &mut R, space: &mut [u8]) -> (usize, io::Result<()>)
    ensures within { result.0 ≤ length space.new }
    ensures bytes { Consumes (R.remaining reader.old) (R.remaining reader.new) (take result.0 space.new) }
    ensures end { OnOk result.1 (result.0 < length space.new → IsAtEnd (R.remaining reader.new)) }
{
    let mut count = 0;
    while count < space.len() {
        match reader.read(&mut space[count..]) {
            Ok(0) => break,
            Ok(got) => count += got,
            Err(error) => return (count, Err(error)),
        }
    }
    (count, Ok(()))
}
