// What no clause says: that reading goes on, which error is handed on, and that what stands behind the bytes read is left.
use super::fill;
use std::io;
use std::io::{ErrorKind, Read};

// A stream of seven bytes that gives three at a read, and then ends or fails.
#[derive(Drop)]
struct Stream {
    given: usize,
    fails: bool,
}

const BYTES: [u8; 7] = *b"seven b";

impl Read for Stream {
    fn read(&mut self, buf: &mut [u8]) -> io::Result<usize> {
        let rest = BYTES.get(self.given..).unwrap_or(&[]);
        if rest.is_empty() && self.fails {
            return Err(io::Error::from(ErrorKind::TimedOut));
        }
        let count = buf.len().min(rest.len()).min(3);
        buf[..count].copy_from_slice(&rest[..count]);
        self.given = self.given.saturating_add(count);
        Ok(count)
    }
}

// Rooms of no byte, of fewer than the stream has, of as many, and of one more, where it ends or fails.
#[test]
fn a_space_is_filled(rt: HostRuntime) {
    for (room, fails, want, held, error) in [
        (0, true, 0, *b"---------", None),
        (4, true, 4, *b"seve-----", None),
        (7, true, 7, *b"seven b--", None),
        (8, false, 7, *b"seven b--", None),
        (8, true, 7, *b"seven b--", Some(ErrorKind::TimedOut)),
    ] {
        let mut stream = Stream { given: 0, fails };
        let mut space = [b'-'; 9];
        assert!(rt; room <= space.len());
        let (count, read) = fill(&mut stream, &mut space[..room]);
        assert_eq!(rt; count, want, "of {room}");
        assert_eq!(rt; read.err().map(|e| e.kind()), error, "of {room}");
        assert_eq!(rt; stream.given, want, "of {room}");
        assert_eq!(rt; space, held, "of {room}");
    }
}

// A slice of bytes is a reader, and what is left of it is what was not read.
#[test]
fn a_slice_is_read(rt: HostRuntime) {
    let mut reader = BYTES.as_slice();
    let mut space = [0; 5];
    let (count, read) = fill(&mut reader, &mut space);
    assert!(rt; read.is_ok());
    assert_eq!(rt; count, 5);
    assert_eq!(rt; space, *b"seven");
    assert_eq!(rt; reader, b" b".as_slice());
}
