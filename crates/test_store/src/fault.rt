//! Why the program does not come to its end.
use std::alloc::AllocError;
use std::io;
use std::num::ParseIntError;

/// Why the program does not come to its end.
#[derive(Clone, Copy, Debug)]
pub enum Fault {
    /// A word of the call, or a line, that says nothing.
    NotUnderstood,
    /// A file cannot be read, or nothing can be written.
    Files,
    /// Memory was refused.
    Memory,
}

impl From<io::Error> for Fault {
    fn from(_error: io::Error) -> Fault {
        Fault::Files
    }
}

impl From<AllocError> for Fault {
    fn from(_error: AllocError) -> Fault {
        Fault::Memory
    }
}

impl From<ParseIntError> for Fault {
    fn from(_error: ParseIntError) -> Fault {
        Fault::NotUnderstood
    }
}
