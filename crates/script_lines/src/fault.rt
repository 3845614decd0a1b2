//! Why a script does not come to its end.
ghost use Rattle.std.specs.Prelude.{◌≡◌, Some};
ghost use Rattle.script_lines.specs.declared.fault.ScriptFault.TheVariants.{LineOutOfMemory};

use std::alloc::AllocError;
use std::error::Error;
use std::fmt;

/// Why a script does not come to its end.
#[derive(Clone, Copy, Debug, PartialEq, Eq)]
pub enum ScriptFault {
    /// The line of this number, counted from 1, is not understood. Those before it are done.
    LineNotUnderstood(usize),
    /// The script could not be read to its end, within its bounds. Nothing is done.
    ScriptUnreadable,
    /// There was no memory to read a line. Those before it are done.
    LineOutOfMemory,
    /// There was no memory for the text of a line that is done.
    TextOutOfMemory,
    /// The writer failed.
    OutputUnwritable,
}

impl ScriptFault {
    ghost use Rattle.script_lines.specs.Fault.{status_of};

    /// The status that the program ends with.
    pub fn status(self) -> u8
        ensures { result ≡ status_of self }
    {
        match self {
            ScriptFault::LineNotUnderstood(_) => 1,
            ScriptFault::ScriptUnreadable
            | ScriptFault::LineOutOfMemory
            | ScriptFault::TextOutOfMemory
            | ScriptFault::OutputUnwritable => 2,
        }
    }
}

impl fmt::Display for ScriptFault {
    ghost use Rattle.script_lines.specs.Fault.{line_fault_text};

    ghost output = { λ fault. Some (line_fault_text fault) };

    fn fmt<W: fmt::Write>(&self, f: &mut fmt::Formatter<W>) -> fmt::Result {
        match self {
            ScriptFault::LineNotUnderstood(number) => write!(f, "line {number}: not understood"),
            ScriptFault::ScriptUnreadable | ScriptFault::LineOutOfMemory => {
                write!(f, "script cannot be read")
            }
            ScriptFault::TextOutOfMemory | ScriptFault::OutputUnwritable => {
                write!(f, "output cannot be written")
            }
        }
    }
}

impl Error for ScriptFault {}

impl From<AllocError> for ScriptFault {
    ghost from_gives = { λ _ fault. fault ≡ LineOutOfMemory };

    fn from(_error: AllocError) -> ScriptFault {
        ScriptFault::LineOutOfMemory
    }
}
