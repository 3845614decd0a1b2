// The error of a handler whose command is of another type than the recorded one.
ghost use Rattle.std.specs.Prelude.{◌≡◌, Some};
ghost use Rattle.std.specs.Fmt.{WritesOnOk};
ghost use Rattle.protocol_errors.specs.Code.{journal_mismatch};
ghost use Rattle.protocol_errors.specs.Texts.{mismatch_text, recorded_text, attempted_text, type_mismatch_text};

use crate::{InvocationErrorCode, WithInvocationErrorCode, codes};
use protocol_stream::MessageType;
use std::fmt;

/// A command of another type than the recorded one.
#[derive(Clone, Copy, Debug)]
pub struct CommandTypeMismatchError {
    command_index: i64,
    actual: MessageType,
    expected: MessageType,
}

impl CommandTypeMismatchError {
    /// At this place of the journal, of the recorded type and the one that the handler asks for.
    pub fn new(
        command_index: i64,
        actual: MessageType,
        expected: MessageType,
    ) -> CommandTypeMismatchError
        ensures { result
            ≡ record { command_index = command_index; actual = actual; expected = expected } }
    {
        CommandTypeMismatchError {
            command_index,
            actual,
            expected,
        }
    }
}

#[tactic(auto, unfolding(crate::specs::Texts::recorded_text))]
// Writes what was recorded at this place of the journal.
fn write_recorded<W: fmt::Write>(
    actual: MessageType,
    index: i64,
    f: &mut fmt::Formatter<W>,
) -> fmt::Result
    ensures { WritesOnOk W.write_str_gives f.old result (recorded_text actual index) f.new }
{
    write!(
        f,
        "\n - The previous execution ran and recorded the following: '{actual}' (index '{index}')"
    )
}

#[tactic(auto, unfolding(crate::specs::Texts::attempted_text))]
// Writes what the handler asks for.
fn write_attempted<W: fmt::Write>(expected: MessageType, f: &mut fmt::Formatter<W>) -> fmt::Result
    ensures { WritesOnOk W.write_str_gives f.old result (attempted_text expected) f.new }
{
    write!(
        f,
        "\n - The current execution attempts to perform the following: '{expected}'"
    )
}

impl fmt::Display for CommandTypeMismatchError {
    ghost output = { λ error. Some (type_mismatch_text error) };

    fn fmt<W: fmt::Write>(&self, f: &mut fmt::Formatter<W>) -> fmt::Result {
        write_mismatch(f)?;
        write_recorded(self.actual, self.command_index, f)?;
        write_attempted(self.expected, f)
    }
}

impl std::error::Error for CommandTypeMismatchError {}

impl WithInvocationErrorCode for CommandTypeMismatchError {
    ghost code_of = { λ _. journal_mismatch };

    fn code(&self) -> InvocationErrorCode {
        codes::JOURNAL_MISMATCH
    }
}

#[tactic(auto, unfolding(crate::specs::Texts::mismatch_text))]
/// Writes how each text of a mismatch begins.
pub fn write_mismatch<W: fmt::Write>(f: &mut fmt::Formatter<W>) -> fmt::Result
    ensures { WritesOnOk W.write_str_gives f.old result mismatch_text f.new }
{
    f.write_str(
        "Found a mismatch between the code paths taken during the previous execution and the paths taken during this execution.\nThis typically happens when some parts of the code are non-deterministic.",
    )
}
