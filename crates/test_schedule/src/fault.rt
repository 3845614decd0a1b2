//! Why the program does not come to its end.
use std::alloc::{AllocError, AllocFailed};
use std::io;

/// Why the program does not come to its end.
#[derive(Clone, Copy, Debug)]
pub enum Fault {
    /// A name of no handler.
    NotUnderstood,
    /// A file cannot be read, or nothing can be written.
    Files,
    /// Memory was refused, where none is.
    Memory,
    /// A store is not opened, where no call fails.
    NotOpened,
}

impl From<io::Error> for Fault {
    fn from(_error: io::Error) -> Fault {
        Fault::Files
    }
}

impl From<AllocError> for Fault {
    fn from(_error: AllocError) -> Fault {
        Fault::Memory
    }
}

impl<T: Drop> From<AllocFailed<T>> for Fault {
    fn from(_error: AllocFailed<T>) -> Fault {
        Fault::Memory
    }
}
