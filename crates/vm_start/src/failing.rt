// A machine fails.
ghost use Rattle.std.specs.Prelude.{◌≡◌, ◌⊎◌, OnOk, OnErr, IfOk, IsErrOf, Result, Ok};
ghost use Rattle.protocol_errors.specs.Code.{internal};
ghost use Rattle.protocol_errors.specs.Error.{plain_error};
ghost use Rattle.protocol_stream.specs.declared.encoder.EncodingError.TheVariants.{PayloadTooLong};
ghost use Rattle.vm_start.specs.FailureReport.{out_of_memory, or_out_of_memory, IsErrorTooLong, WritesError, TellsError, TellsFailureCause, IsCopy, FailsMachine, IsAgain};
ghost use Rattle.vm_start.specs.Phases.{kept_error};

use crate::{Phase, error_message, fail_with};
use bytes::ByteStr;
use protocol_controls::ErrorMessage;
use protocol_errors::{Error, codes, to_error};
use protocol_stream::EncodingError;
use protocol_types::Version;
use std::alloc::{AllocError, Global};
use std::mem::replace;
use vm_context::Output;
use vm_types::JournalMismatchRetryBehavior;

/// What a machine fails with where memory was refused. It takes none.
pub fn out_of_memory() -> Error
    ensures { result ≡ out_of_memory }
{
    Error::new(codes::INTERNAL, ByteStr::from_static("out of memory"))
}

/// An error, or that memory was refused for it.
pub fn or_out_of_memory(told: Result<Error, AllocError>) -> Error
    ensures { result ≡ or_out_of_memory told }
{
    match told {
        Ok(error) => error,
        Err(_) => out_of_memory(),
    }
}

// A copy, or that there is no memory for one.
fn copy_of(kept: &Error) -> Error
    ensures { IsCopy kept.now result }
{
    match kept.clone() {
        Ok(copy) => copy,
        Err(_) => out_of_memory(),
    }
}

// The frame of an error, whole or not at all; behind the end nothing.
fn write_error(output: &mut Output, alloc: Global, error: &Error) -> Result<(), EncodingError>
    ensures ok { OnOk result (WritesError error.now output.old output.new) }
    ensures err { OnErr result (output.new ≡ output.old) }
    ensures too_long { IsErrOf result PayloadTooLong → IsErrorTooLong error.now output.old }
{
    if output.is_closed() {
        return Ok(());
    }
    let message = error_message(alloc, error)?;
    let sent = output.send(alloc, &message);
    drop(message);
    sent
}

// An error in place of one whose frame would be too long.
fn tell_too_long(output: &mut Output, alloc: Global) -> Error
    ensures { ((result ≡ plain_error internal result.message) × WritesError result output.old output.new) ⊎ ((result ≡ out_of_memory) × (output.new ≡ output.old)) }
{
    let Ok(error) = to_error(alloc, &EncodingError::PayloadTooLong) else {
        return out_of_memory();
    };
    match write_error(output, alloc, &error) {
        Ok(()) => error,
        Err(_) => {
            drop(error);
            out_of_memory()
        }
    }
}

// Writes the frame of an error, and answers what the machine fails with.
fn tell(output: &mut Output, alloc: Global, error: Error) -> Error
    ensures { TellsError error output.old result output.new }
{
    match write_error(output, alloc, &error) {
        Ok(()) => error,
        Err(EncodingError::PayloadTooLong) => {
            drop(error);
            tell_too_long(output, alloc)
        }
        Err(EncodingError::OutOfMemory) => {
            drop(error);
            out_of_memory()
        }
    }
}

// Writes what is told of a cause, and answers what the machine fails with.
fn tell_cause(
    output: &mut Output,
    alloc: Global,
    version: Version,
    asked: JournalMismatchRetryBehavior,
    cause: Result<Error, AllocError>,
) -> Error
    ensures { TellsFailureCause version asked cause output.old result output.new }
{
    match cause {
        Ok(error) => tell(output, alloc, fail_with(version, asked, error)),
        Err(_) => out_of_memory(),
    }
}

/// What a machine that has failed answers: a copy of its error. Where memory is refused for that, its answer says so, and the
/// error stays.
pub fn again(phase: &Phase) -> Option<Error>
    ensures { IsAgain (kept_error phase.now) result }
{
    match phase {
        Phase::Failed(kept) => Some(copy_of(kept)),
        _ => None,
    }
}

// What is answered from now on.
fn keep(phase: &mut Phase, told: Error) -> Error
    ensures phase { phase.new ≡ Phase.Failed told }
    ensures answer { IsCopy told result }
{
    let answer = copy_of(&told);
    drop(replace(phase, Phase::Failed(told)));
    answer
}

/// Fails the machine with what came up, an error or that memory was refused for one, and answers that.
///
/// Its frame is written once, where the output has no end yet, and then the output has one.
pub fn fail(
    phase: &mut Phase,
    output: &mut Output,
    alloc: Global,
    version: Version,
    asked: JournalMismatchRetryBehavior,
    cause: Result<Error, AllocError>,
) -> Error
    ensures { FailsMachine version asked cause phase.old output.old result phase.new output.new }
{
    if let Some(answer) = again(phase) {
        drop(cause);
        return answer;
    }
    let told = tell_cause(output, alloc, version, asked, cause);
    output.send_eof();
    keep(phase, told)
}
