// Why a command has no answer.
use std::io;

// It is unknown, or not as it should be.
#[derive(Clone, Copy)]
pub(crate) struct Bad;

// It is bad, and nothing of its line is printed; or its line could not be printed.
#[derive(Drop)]
pub(crate) enum Fault {
    Bad,
    Print(io::Error),
}

impl From<Bad> for Fault {
    fn from(_bad: Bad) -> Fault {
        Fault::Bad
    }
}

impl From<io::Error> for Fault {
    fn from(error: io::Error) -> Fault {
        Fault::Print(error)
    }
}
