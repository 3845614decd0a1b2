//! Why the program does not come to its end.
ghost use Rattle.std.specs.Prelude.{◌≡◌, Some};

use durable_script::ScriptFault;
use std::fmt;
use store_files::Reason;
use store_server::ServerFault;

/// Why the program does not come to its end.
#[derive(Drop)]
pub enum ProgramFault {
    /// It was not called with one word, or two.
    Usage,
    /// The path of the database is no text.
    PathNoText,
    /// There is no file to list.
    FileMissing,
    /// The database cannot be opened, or closed.
    DatabaseRefused(Reason),
    /// The script does not come to its end; and what is amiss with its line, where that is not understood.
    Script(ScriptFault, Option<String>),
    /// The store is served no longer, or not listed to its end.
    Server(ServerFault),
}

impl ProgramFault {
    ghost use Rattle.durable.specs.Fault.{status_of};

    /// The status that the program ends with.
    pub fn status(&self) -> u8
        ensures { result ≡ status_of self.now }
    {
        match self {
            ProgramFault::Usage => 3,
            ProgramFault::PathNoText
            | ProgramFault::FileMissing
            | ProgramFault::DatabaseRefused(_) => 2,
            ProgramFault::Script(fault, _) => fault.status(),
            ProgramFault::Server(fault) => fault.status(),
        }
    }
}

/// How the program is called.
const USAGE: &str = "usage: durable SCRIPT DATABASE
       durable --serve DATABASE
       durable DATABASE";

impl fmt::Display for ProgramFault {
    ghost use Rattle.durable.specs.Fault.{program_fault_text};

    ghost output = { λ fault. Some (program_fault_text fault) };

    fn fmt<W: fmt::Write>(&self, f: &mut fmt::Formatter<W>) -> fmt::Result {
        match self {
            ProgramFault::Usage => write!(f, "{USAGE}"),
            ProgramFault::PathNoText => write!(f, "database refused\nits path is no UTF-8"),
            ProgramFault::FileMissing => write!(f, "database refused\nthere is no such file"),
            ProgramFault::DatabaseRefused(reason) => write!(f, "database refused\n{reason}"),
            ProgramFault::Script(fault, None) => write!(f, "{fault}"),
            ProgramFault::Script(fault, Some(why)) => write!(f, "{fault}\n{why}"),
            ProgramFault::Server(fault) => write!(f, "{fault}"),
        }
    }
}
