use journal_store::Refusal;
use std::alloc::{AllocError, AllocFailed};
use std::io;
use std::num::ParseIntError;

/// Why the program does not come to its end.
#[derive(Clone, Copy, Debug)]
pub enum Fault {
    /// A word of the call says nothing.
    NotUnderstood,
    /// Nothing can be printed, or no time is told.
    Host,
    /// Memory was refused.
    Memory,
    /// No store was made.
    NoStore,
    /// An event did not come to what it is meant to.
    OtherReply,
}

impl From<io::Error> for Fault {
    fn from(_error: io::Error) -> Fault {
        Fault::Host
    }
}

impl From<AllocError> for Fault {
    fn from(_error: AllocError) -> Fault {
        Fault::Memory
    }
}

impl<T: Drop> From<AllocFailed<T>> for Fault {
    fn from(_error: AllocFailed<T>) -> Fault {
        Fault::Memory
    }
}

impl From<ParseIntError> for Fault {
    fn from(_error: ParseIntError) -> Fault {
        Fault::NotUnderstood
    }
}

impl From<Refusal> for Fault {
    fn from(_refusal: Refusal) -> Fault {
        Fault::NoStore
    }
}
