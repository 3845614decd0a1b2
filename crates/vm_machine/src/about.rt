// Errors about a command, and about none.
ghost use Rattle.std.specs.Prelude.{◌≡◌, IfOk};
ghost use Rattle.vm_machine.specs.Causes.{TellsPlainError, TellsLast};

use crate::Journal;
use protocol_errors::{Error, WithInvocationErrorCode, to_error};
use std::alloc::{AllocError, Global};
use std::fmt;

/// The error of what came up, about no command.
pub fn about_nothing<E: WithInvocationErrorCode + fmt::Display>(
    alloc: Global,
    error: &E,
) -> Result<Error, AllocError>
    ensures { IfOk result (TellsPlainError (E.code_of error.now) (E.output error.now)) }
{
    to_error(alloc, error)
}

/// The error of what came up, about the command that was asked for last.
pub fn about_last<E: WithInvocationErrorCode + fmt::Display>(
    alloc: Global,
    journal: &Journal,
    error: &E,
) -> Result<Error, AllocError>
    ensures { IfOk result (TellsLast journal.now (E.code_of error.now) (E.output error.now)) }
{
    let error = to_error(alloc, error)?;
    match journal.last_command_metadata() {
        Ok(command) => Ok(error.with_related_command_metadata(command)),
        Err(refused) => {
            drop(error);
            Err(refused)
        }
    }
}
