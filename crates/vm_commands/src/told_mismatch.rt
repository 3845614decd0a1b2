// Two commands that differ, in a box: the result of a step is then no larger than its answer.
ghost use Rattle.std.specs.Prelude.{◌≡◌, ◌++◌, Some, IfOk};
ghost use Rattle.protocol_errors.specs.Code.{journal_mismatch};
ghost use Rattle.protocol_errors.specs.Texts.{mismatch_text};
ghost use Rattle.protocol_differences.specs.Mismatch.{place_text};
ghost use Rattle.vm_commands.specs.NextCommand.{both_told};

use protocol_differences::{CommandMessageHeaderDiff, CommandMismatchError};
use protocol_errors::{InvocationErrorCode, WithInvocationErrorCode, codes};
use std::alloc::{AllocError, Global};
use std::fmt;
use std::marker::Model;

/// A command of the recorded type whose fields differ from the recorded ones. Contracts see the error that it prints.
#[derive(Debug, Drop)]
pub struct ToldMismatch<M> {
    error: Box<CommandMismatchError<M>>,
}

impl<M> Model for ToldMismatch<M> {
    ghost use Rattle.protocol_differences.specs.declared.mismatch.CommandMismatchError.{CommandMismatchError};

    ghost Value = { CommandMismatchError M };

    ghost view = { λ told. told.error.value };
}

impl<M: Drop> ToldMismatch<M> {
    // At this place of the journal.
    pub(crate) fn new(
        alloc: Global,
        command_index: i64,
        recorded: M,
        made: M,
    ) -> Result<ToldMismatch<M>, AllocError>
        ensures { IfOk result (λ told. told ≡ both_told command_index recorded made) }
    {
        match Box::new(
            alloc,
            CommandMismatchError::new(command_index, recorded, made),
        ) {
            Ok(error) => Ok(ToldMismatch { error }),
            Err(refused) => {
                drop(refused);
                Err(AllocError)
            }
        }
    }
}

/// Prints the error.
impl<M: CommandMessageHeaderDiff> fmt::Display for ToldMismatch<M> {
    ghost output = { λ error. Some (mismatch_text ++ place_text error.command_index ++ M.difference error.actual error.expected) };

    fn fmt<W: fmt::Write>(&self, f: &mut fmt::Formatter<W>) -> fmt::Result {
        let error = &*self.error;
        write!(f, "{error}")
    }
}

impl<M> WithInvocationErrorCode for ToldMismatch<M> {
    ghost code_of = { λ _. journal_mismatch };

    fn code(&self) -> InvocationErrorCode {
        codes::JOURNAL_MISMATCH
    }
}
