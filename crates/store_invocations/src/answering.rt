//! What a closed invocation answers.

ghost use Rattle.std.specs.Prelude.{◌≡◌, ◌<◌, ◌^◌, length, List, IfOk, IfSome, IfErr};
ghost use Rattle.sqlite.specs.Held.{state};
ghost use Rattle.sqlite.specs.State.{HasCleanDisk};
ghost use Rattle.journal_model.specs.Event.{Event};
ghost use Rattle.store_tables.specs.Looks.{OnlyAsks};
ghost use Rattle.store_invocations.specs.InvocationAnswers.{IsShortPayload, ReadsRow, answer_by, answer_told, failure_by, output_by, output_in};
ghost use Rattle.store_invocations.specs.Rows.{Decides, IsStoreOf, known_tests};
ghost use Rattle.store_refusals.specs.Causes.{TellsCause};

use crate::row::known_row;
use bytes::{ByteStr, Bytes};
use journal_model::NonEmptyValue;
use protocol_records::{Failure, OutputCommandMessage};
use protocol_stream::{to_non_empty_value, to_terminal_failure};
use protocol_wire::{DecodeError, decode};
use sequence::Sequence;
use sqlite::Alter;
use std::alloc::{AllocError, Global};
use store_refusals::Refusal;
use store_tables::{Closing, LastError, Progress, StoreTables};

/// What an output puts out.
fn value_of(alloc: Global, payload: &[u8]) -> Result<NonEmptyValue, Refusal>
    ensures read { ReadsRow (output_in payload.now) result }
    ensures short { length payload.now < 2 ^ 64 }
{
    match decode::<OutputCommandMessage>(alloc, payload) {
        Ok(output) => {
            let OutputCommandMessage { name, result } = output;
            drop(name);
            match result {
                Some(result) => {
                    let value = to_non_empty_value(alloc, result)?;
                    Ok(value)
                }
                None => Err(Refusal::ForeignRow),
            }
        }
        Err(DecodeError::Fault(_)) => Err(Refusal::ForeignRow),
        Err(DecodeError::Memory) => Err(Refusal::OutOfMemory),
    }
}

/// What an invocation answers that ended: what its last output puts out.
fn put_out(alloc: Global, output: &Option<Bytes>) -> Result<Option<NonEmptyValue>, Refusal>
    ensures read { ReadsRow (output_by output.now) result }
    ensures short { IfSome output.now (λ payload. length payload < 2 ^ 64) }
{
    match output {
        Some(payload) => {
            let value = value_of(alloc, payload.as_slice())?;
            Ok(Some(value))
        }
        None => Ok(None),
    }
}

/// The failure that an error is, with a code of sixteen bits.
fn failure_of(alloc: Global, error: &LastError) -> Result<NonEmptyValue, AllocError>
    ensures { IfOk result (λ value. value ≡ failure_by error.now) }
{
    let message = error.message.clone()?;
    let failure = to_terminal_failure(
        alloc,
        Failure {
            code: error.code,
            message,
            metadata: Sequence::new(alloc),
        },
    )?;
    Ok(NonEmptyValue::Failure(failure))
}

/// What an invocation answers, by the way in which it was closed.
fn answer_of(alloc: Global, progress: &Progress) -> Result<Option<NonEmptyValue>, Refusal>
    ensures read { ReadsRow (answer_by progress.now) result }
    ensures short { IsShortPayload progress.now }
{
    match progress.closing {
        None => Ok(None),
        Some(Closing::Ended) => put_out(alloc, &progress.answer),
        Some(Closing::Failed) => match &progress.last_error {
            Some(error) => {
                let value = failure_of(alloc, error)?;
                Ok(Some(value))
            }
            None => Err(Refusal::ForeignRow),
        },
    }
}

/// What a closed invocation answers: what its last output puts out, or the failure that closed it. Nothing where it is open, and
/// where it ended with no output. The code of a failure has sixteen bits then.
pub fn answer<S: Alter>(
    tables: &mut StoreTables<S>,
    id: &ByteStr,
) -> Result<Option<NonEmptyValue>, Refusal>
    ensures told { HasCleanDisk (state S.Store tables.new) → (events : List Event) → IsStoreOf events (state S.Store tables.old) → Decides (known_tests events id.now) (λ answer. answer ≡ answer_told events id.now) result }
    ensures looks { OnlyAsks S.Store tables.old tables.new }
    ensures cause { IfErr result (TellsCause (state S.Store tables.old) (state S.Store tables.new)) }
{
    let row = known_row(tables, id)?;
    let answer = answer_of(tables.alloc(), &row.progress);
    drop(row);
    answer
}
