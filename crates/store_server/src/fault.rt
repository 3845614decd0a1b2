//! Why a store is served no longer.
ghost use Rattle.std.specs.Prelude.{◌≡◌, Some};
ghost use Rattle.store_server.specs.declared.fault.ServerFault.TheVariants.{LineOutOfMemory};

use std::alloc::AllocError;
use std::error::Error;
use std::fmt;

/// Why a store is served no longer, or why its invocations are not all listed.
#[derive(Clone, Copy, Debug, PartialEq, Eq)]
pub enum ServerFault {
    /// The reader failed. The lines before are done and answered.
    InputUnreadable,
    /// A line is longer than any may be. Where it ends is not looked for. Those before are done and answered.
    LineTooLong,
    /// There was no memory to read a line, which is not done. Those before are done and answered.
    LineOutOfMemory,
    /// There was no memory for the answer to a line that is done.
    AnswerOutOfMemory,
    /// The store does not tell which invocations there are.
    Untold,
    /// The writer failed.
    OutputUnwritable,
}

impl ServerFault {
    ghost use Rattle.store_server.specs.Fault.{server_status};

    /// The status that a program ends with.
    pub fn status(self) -> u8
        ensures { result ≡ server_status self }
    {
        match self {
            ServerFault::LineTooLong => 1,
            ServerFault::InputUnreadable
            | ServerFault::LineOutOfMemory
            | ServerFault::AnswerOutOfMemory
            | ServerFault::Untold
            | ServerFault::OutputUnwritable => 2,
        }
    }
}

impl fmt::Display for ServerFault {
    ghost use Rattle.store_server.specs.Fault.{server_fault_text};

    ghost output = { λ fault. Some (server_fault_text fault) };

    fn fmt<W: fmt::Write>(&self, f: &mut fmt::Formatter<W>) -> fmt::Result {
        match self {
            ServerFault::LineTooLong => write!(f, "line too long"),
            ServerFault::InputUnreadable | ServerFault::LineOutOfMemory => {
                write!(f, "input cannot be read")
            }
            ServerFault::Untold => write!(f, "database cannot be read"),
            ServerFault::AnswerOutOfMemory | ServerFault::OutputUnwritable => {
                write!(f, "output cannot be written")
            }
        }
    }
}

impl Error for ServerFault {}

impl From<AllocError> for ServerFault {
    ghost from_gives = { λ _ fault. fault ≡ LineOutOfMemory };

    fn from(_error: AllocError) -> ServerFault {
        ServerFault::LineOutOfMemory
    }
}
