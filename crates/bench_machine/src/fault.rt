use journal_protocol::{DecodingError, EncodingError, Error};
use std::alloc::{AllocError, AllocFailed};
use std::io;
use std::num::ParseIntError;

/// Why the program does not come to its end.
#[derive(Clone, Copy, Debug)]
pub enum Fault {
    /// A word of the call says nothing.
    NotUnderstood,
    /// Nothing can be printed, or no time is told.
    Host,
    /// Memory was refused.
    Memory,
    /// A message is not read, or not written.
    Message,
    /// The machine refuses a call, or an await of its journal is not over.
    Machine,
}

impl From<io::Error> for Fault {
    fn from(_error: io::Error) -> Fault {
        Fault::Host
    }
}

impl From<AllocError> for Fault {
    fn from(_error: AllocError) -> Fault {
        Fault::Memory
    }
}

impl<T: Drop> From<AllocFailed<T>> for Fault {
    fn from(_error: AllocFailed<T>) -> Fault {
        Fault::Memory
    }
}

impl From<ParseIntError> for Fault {
    fn from(_error: ParseIntError) -> Fault {
        Fault::NotUnderstood
    }
}

impl From<DecodingError> for Fault {
    fn from(error: DecodingError) -> Fault {
        drop(error);
        Fault::Message
    }
}

impl From<EncodingError> for Fault {
    fn from(_error: EncodingError) -> Fault {
        Fault::Message
    }
}

impl From<Error> for Fault {
    fn from(error: Error) -> Fault {
        drop(error);
        Fault::Machine
    }
}
