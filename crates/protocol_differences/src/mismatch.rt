// The error of a handler whose command is not the recorded one, though of its type.
ghost use Rattle.std.specs.Prelude.{◌≡◌, ◌++◌, Some};
ghost use Rattle.std.specs.Fmt.{WritesOnOk};
ghost use Rattle.protocol_errors.specs.Texts.{mismatch_text};
ghost use Rattle.protocol_differences.specs.Mismatch.{place_text};
ghost use Rattle.protocol_errors.specs.Code.{journal_mismatch};

use crate::CommandMessageHeaderDiff;
use protocol_errors::{InvocationErrorCode, WithInvocationErrorCode, codes, write_mismatch};
use std::fmt;

/// A command of the recorded type whose fields differ from the recorded ones.
#[derive(Debug, Drop)]
pub struct CommandMismatchError<M> {
    command_index: i64,
    actual: M,
    expected: M,
}

impl<M> CommandMismatchError<M> {
    /// At this place of the journal, of the recorded command and the one that the handler asks for.
    pub fn new(command_index: i64, actual: M, expected: M) -> CommandMismatchError<M>
        ensures { result
            ≡ record { command_index = command_index; actual = actual; expected = expected } }
    {
        CommandMismatchError {
            command_index,
            actual,
            expected,
        }
    }
}

#[tactic(auto, unfolding(crate::specs::Mismatch::place_text))]
// Writes the place in the journal.
fn write_place<W: fmt::Write>(index: i64, f: &mut fmt::Formatter<W>) -> fmt::Result
    ensures { WritesOnOk W.write_str_gives f.old result (place_text index) f.new }
{
    write!(
        f,
        "\n - The mismatch happened at index '{index}'\n - The recorded command and the one of this execution differ in:"
    )
}

/// Prints the place, and a line for each field that differs, first as it is recorded.
impl<M: CommandMessageHeaderDiff> fmt::Display for CommandMismatchError<M> {
    ghost output = { λ error. Some (mismatch_text ++ place_text error.command_index ++ M.difference error.actual error.expected) };

    fn fmt<W: fmt::Write>(&self, f: &mut fmt::Formatter<W>) -> fmt::Result {
        write_mismatch(f)?;
        write_place(self.command_index, f)?;
        self.actual.write_diff(&self.expected, f)
    }
}

impl<M: CommandMessageHeaderDiff + fmt::Debug + Drop> std::error::Error
    for CommandMismatchError<M> {}

impl<M> WithInvocationErrorCode for CommandMismatchError<M> {
    ghost code_of = { λ _. journal_mismatch };

    fn code(&self) -> InvocationErrorCode {
        codes::JOURNAL_MISMATCH
    }
}
