//! What a recorded request asks of another invocation, read of its row.

ghost use Rattle.std.specs.Prelude.{◌≡◌, ◌<◌, ◌^◌, List, Some, length, option_map, slice_get, IfErr, IfOk};
ghost use Rattle.sqlite.specs.Held.{state};
ghost use Rattle.sqlite.specs.State.{HasCleanDisk};
ghost use Rattle.journal_model.specs.Value.{result_of_value};
ghost use Rattle.journal_model.specs.Request.{Request};
ghost use Rattle.journal_model.specs.Spelling.{request_payload, request_type};
ghost use Rattle.journal_model.specs.Event.{Event};
ghost use Rattle.protocol_laws.specs.Requests.{awakeable_told, request_of_complete_awakeable, request_of_send_signal, signal_key_told, signal_value_told};
ghost use Rattle.delivery_laws.specs.Message.{Message, message_at, message_of, result_of_signal};
ghost use Rattle.store_tables.specs.Looks.{OnlyAsks};
ghost use Rattle.store_model.specs.KeptRecords.{journal_rows};
ghost use Rattle.store_refusals.specs.Causes.{IsUnasked, TellsCause};
ghost use Rattle.store_refusals.specs.Preparations.{TellsOrRefuses};
ghost use Rattle.store_invocations.specs.Rows.{IsStoreOf};
ghost use Rattle.store_deliveries.specs.RecordedMessages.{CompletionRead, IsAsked, IsReadable, SignalRead, is_completion_type, is_signal_type, message_told};

use bytes::ByteStr;
use journal_model::{NotificationResult, SignalKey};
use protocol_calls::{
    CompleteAwakeableCommandMessage, CompleteAwakeableCommandResult, SendSignalCommandMessage,
    SendSignalCommandResult, SendSignalCommandSignalId,
};
use protocol_stream::{MessageType, to_failure};
use protocol_wire::{DecodeError, decode};
use sqlite::Alter;
use std::alloc::{AllocError, Global};
use store_refusals::Refusal;
use store_tables::{EntryRow, StoreTables, entry_at};

/// What a recorded request asks of another invocation, where a store delivers it.
#[derive(Debug, Drop)]
pub(crate) enum RecordedMessage {
    /// That a signal comes to one.
    Tells {
        target: ByteStr,
        key: SignalKey,
        brought: NotificationResult,
    },
    /// That the awakeable is completed that a text names.
    Completes {
        awakeable: ByteStr,
        brought: NotificationResult,
    },
}

fn is_signal(kind: MessageType) -> bool
    ensures { result ≡ is_signal_type kind }
{
    matches!(kind, MessageType::SendSignalCommand)
}

fn is_completion(kind: MessageType) -> bool
    ensures { result ≡ is_completion_type kind }
{
    matches!(kind, MessageType::CompleteAwakeableCommand)
}

fn key_of(id: SendSignalCommandSignalId) -> SignalKey
    ensures { result ≡ signal_key_told id }
{
    match id {
        SendSignalCommandSignalId::Idx(number) => SignalKey::ByIndex(number),
        SendSignalCommandSignalId::Name(name) => SignalKey::ByName(name),
    }
}

fn signal_brings(
    alloc: Global,
    carried: SendSignalCommandResult,
) -> Result<NotificationResult, AllocError>
    ensures { IfOk result (λ brought. brought ≡ result_of_signal (signal_value_told carried)) }
{
    match carried {
        SendSignalCommandResult::Void(void) => {
            drop(void);
            Ok(NotificationResult::Void)
        }
        SendSignalCommandResult::Value(value) => Ok(NotificationResult::Value(value.content)),
        SendSignalCommandResult::Failure(failure) => {
            let failure = to_failure(alloc, failure)?;
            Ok(NotificationResult::Failure(failure))
        }
    }
}

fn completion_brings(
    alloc: Global,
    carried: CompleteAwakeableCommandResult,
) -> Result<NotificationResult, AllocError>
    ensures { IfOk result (λ brought. brought ≡ result_of_value (awakeable_told carried)) }
{
    match carried {
        CompleteAwakeableCommandResult::Value(value) => Ok(NotificationResult::Value(
            value.content,
        )),
        CompleteAwakeableCommandResult::Failure(failure) => {
            let failure = to_failure(alloc, failure)?;
            Ok(NotificationResult::Failure(failure))
        }
    }
}

/// What the record of a signal asks for, if it has what each has.
fn signal_of(
    alloc: Global,
    one: SendSignalCommandMessage,
) -> Result<Option<RecordedMessage>, AllocError>
    ensures { IfOk result (IsAsked (request_of_send_signal one)) }
{
    let SendSignalCommandMessage {
        target_invocation_id: target,
        signal_id,
        result: carried,
        entry_name,
    } = one;
    drop(entry_name);
    match (signal_id, carried) {
        (Some(id), Some(carried)) => match signal_brings(alloc, carried) {
            Ok(brought) => Ok(Some(RecordedMessage::Tells {
                target,
                key: key_of(id),
                brought,
            })),
            Err(refused) => Err(refused),
        },
        _ => Ok(None),
    }
}

/// What the record of an awakeable's completion asks for, if it has what each has.
fn completion_of(
    alloc: Global,
    one: CompleteAwakeableCommandMessage,
) -> Result<Option<RecordedMessage>, AllocError>
    ensures { IfOk result (IsAsked (request_of_complete_awakeable one)) }
{
    let CompleteAwakeableCommandMessage {
        awakeable_id: awakeable,
        result: carried,
        name,
    } = one;
    drop(name);
    match carried {
        Some(carried) => match completion_brings(alloc, carried) {
            Ok(brought) => Ok(Some(RecordedMessage::Completes { awakeable, brought })),
            Err(refused) => Err(refused),
        },
        None => Ok(None),
    }
}

/// What was found; a row that has nothing is foreign.
fn or_foreign(found: Option<RecordedMessage>) -> Result<RecordedMessage, Refusal>
    ensures told { (message : Message) → option_map message_told found ≡ Some message → TellsOrRefuses (λ told. message_told told ≡ message) result }
    ensures unasked { IfErr result IsUnasked }
{
    match found {
        Some(message) => Ok(message),
        None => Err(Refusal::ForeignRow),
    }
}

/// What the signal asks for that has this payload.
fn signal_in(alloc: Global, payload: &[u8]) -> Result<RecordedMessage, Refusal>
    ensures told { (request : Request) (message : Message) → SignalRead request → length (request_payload request) < 2 ^ 64 → payload.now ≡ request_payload request
        → message_of request ≡ Some message → TellsOrRefuses (λ told. message_told told ≡ message) result }
    ensures unasked { IfErr result IsUnasked }
{
    match decode::<SendSignalCommandMessage>(alloc, payload) {
        Ok(one) => {
            let found = signal_of(alloc, one)?;
            or_foreign(found)
        }
        Err(DecodeError::Fault(_)) => Err(Refusal::ForeignRow),
        Err(DecodeError::Memory) => Err(Refusal::OutOfMemory),
    }
}

/// What the completion of an awakeable asks for that has this payload.
fn completion_in(alloc: Global, payload: &[u8]) -> Result<RecordedMessage, Refusal>
    ensures told { (request : Request) (message : Message) → CompletionRead request → length (request_payload request) < 2 ^ 64 → payload.now ≡ request_payload request
        → message_of request ≡ Some message → TellsOrRefuses (λ told. message_told told ≡ message) result }
    ensures unasked { IfErr result IsUnasked }
{
    match decode::<CompleteAwakeableCommandMessage>(alloc, payload) {
        Ok(one) => {
            let found = completion_of(alloc, one)?;
            or_foreign(found)
        }
        Err(DecodeError::Fault(_)) => Err(Refusal::ForeignRow),
        Err(DecodeError::Memory) => Err(Refusal::OutOfMemory),
    }
}

/// What the request of an entry asks of another invocation.
fn message_in(alloc: Global, entry: &EntryRow) -> Result<RecordedMessage, Refusal>
    ensures told { (request : Request) (message : Message) → IsReadable request → entry.now.kind ≡ request_type request → entry.now.payload ≡ request_payload request
        → message_of request ≡ Some message → TellsOrRefuses (λ told. message_told told ≡ message) result }
    ensures unasked { IfErr result IsUnasked }
{
    if is_signal(entry.kind) {
        return signal_in(alloc, entry.payload.as_slice());
    }
    if is_completion(entry.kind) {
        return completion_in(alloc, entry.payload.as_slice());
    }
    Err(Refusal::ForeignRow)
}

/// The row at this place, if there is one.
fn row_at<S: Alter>(
    tables: &mut StoreTables<S>,
    invocation: &ByteStr,
    place: u32,
) -> Result<Option<EntryRow>, Refusal>
    ensures told { HasCleanDisk (state S.Store tables.new) → (events : List Event) → IsStoreOf events (state S.Store tables.old) → TellsOrRefuses (λ row. row ≡ slice_get (journal_rows events invocation.now) place) result }
    ensures looks { OnlyAsks S.Store tables.old tables.new }
    ensures cause { IfErr result (TellsCause (state S.Store tables.old) (state S.Store tables.new)) }
{
    let row = entry_at(tables, invocation, place)?;
    Ok(row)
}

/// What is asked of another invocation by the request at a place of its sender.
pub(crate) fn recorded_message<S: Alter>(
    tables: &mut StoreTables<S>,
    sender: &ByteStr,
    place: u32,
) -> Result<RecordedMessage, Refusal>
    ensures told { HasCleanDisk (state S.Store tables.new) → (events : List Event) (message : Message) → IsStoreOf events (state S.Store tables.old) → message_at events sender.now place ≡ Some message
        → TellsOrRefuses (λ told. message_told told ≡ message) result }
    ensures looks { OnlyAsks S.Store tables.old tables.new }
    ensures cause { IfErr result (TellsCause (state S.Store tables.old) (state S.Store tables.new)) }
{
    let found = row_at(tables, sender, place)?;
    match found {
        Some(entry) => {
            let message = message_in(tables.alloc(), &entry);
            drop(entry);
            message
        }
        None => Err(Refusal::ForeignRow),
    }
}
