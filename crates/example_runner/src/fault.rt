//! Why a call does not come to its end.
use anyhow::Error;
use durable_schedule::Reason;
use std::fmt;

/// Why a call does not come to its end.
#[derive(Drop)]
pub enum Fault {
    /// It was called with other words.
    Usage,
    /// The file of this name is not taken.
    NotTaken(String, Reason),
    /// A job was refused, or did not come as far as it could.
    Refused(Error),
    /// Something else failed.
    Failed(Error),
}

impl Fault {
    /// The status that the program ends with.
    pub fn status(&self) -> u8 {
        match self {
            Fault::Refused(_) => 1,
            Fault::NotTaken(_, Reason::Held) => 5,
            Fault::NotTaken(_, _) | Fault::Failed(_) => 2,
            Fault::Usage => 3,
        }
    }
}

impl fmt::Display for Fault {
    fn fmt<W: fmt::Write>(&self, f: &mut fmt::Formatter<W>) -> fmt::Result {
        match self {
            Fault::Usage => write!(f, "usage: example_runner FILE [NAME [order|trip|confirm]]"),
            Fault::NotTaken(file, reason) => write!(f, "{file}: {reason}"),
            Fault::Refused(why) | Fault::Failed(why) => write!(f, "{why}"),
        }
    }
}

impl From<Error> for Fault {
    fn from(why: Error) -> Fault {
        Fault::Failed(why)
    }
}
