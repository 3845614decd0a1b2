// The read of a key.
ghost use Rattle.std.specs.Prelude.{◌≡◌, true, Some, [], IfOk};
ghost use Rattle.vm_calls.specs.Words.{Call, Request};
ghost use Rattle.journal_model.specs.Delivery.{value_or_void};
ghost use Rattle.journal_model.specs.Run.{name_or_empty};
ghost use Rattle.attempt_model.specs.Requests.{fresh_value};
ghost use Rattle.protocol_types.specs.declared.message_type.MessageType.TheVariants.{GetEagerStateCommand, GetLazyStateCommand};
ghost use Rattle.protocol_laws.specs.Requests.{state_told};
ghost use Rattle.vm_context.specs.Eager.{is_known};
ghost use Rattle.vm_commands.specs.RecordedCommands.{as_recorded};
ghost use Rattle.vm_calls.specs.Active.{IsAtCommand};
ghost use Rattle.vm_calls.specs.SpentReplay.{IsSpent};
ghost use Rattle.vm_state_reads.specs.ReadAnswers.{ReadsByCall, ReadsFor};
ghost use Rattle.vm_state_reads.specs.RecordedReads.{value_known};
ghost use Rattle.vm_state_reads.specs.SpentReplay.{ReadFailsSpent};
ghost use Rattle.vm_state_reads.specs.MismatchedReads.{FindsRead};
ghost use Rattle.vm_state_reads.specs.ReadDescriptions.{type_in_replay, type_behind, IsAtRead};

use crate::ReadError;
use crate::known::{put_read, ready_at_once};
use crate::read_error::{eager_read, lazy_read};
use crate::replaying::match_read;
use crate::telling::begin_in_replay;
use bytes::{ByteStr, Bytes};
use journal_model::{NotificationHandle, NotificationResult, PayloadOptions};
use protocol_commands::{
    GetEagerStateCommandMessage, GetEagerStateCommandResult, GetLazyStateCommandMessage,
};
use protocol_records::{Value, Void};
use protocol_types::MessageType;
use std::alloc::{AllocError, Global};
use vm_calls::{Active, ignores, or_empty};
use vm_commands::StateRead;
use vm_context::EagerGetState;

/// Why the read of a key fails.
pub type ValueReadError = ReadError<GetLazyStateCommandMessage, GetEagerStateCommandMessage>;

// What was known of a recorded read, as its result.
fn value_known(read: StateRead<GetEagerStateCommandResult>) -> Option<NotificationResult>
    ensures { result ≡ value_known read }
{
    match read {
        StateRead::Lazy => None,
        StateRead::Eager(GetEagerStateCommandResult::Void(_)) => Some(NotificationResult::Void),
        StateRead::Eager(GetEagerStateCommandResult::Value(value)) => {
            Some(NotificationResult::Value(value.content))
        }
    }
}

// What is known of a key, as its command holds it and as its result.
fn value_twice(
    known: Option<Bytes>,
) -> Result<(GetEagerStateCommandResult, NotificationResult), AllocError>
    ensures held { IfOk result (λ made. state_told made.0 ≡ known) }
    ensures shown { IfOk result (λ made. made.1 ≡ value_or_void known) }
{
    match known {
        None => Ok((
            GetEagerStateCommandResult::Void(Void {}),
            NotificationResult::Void,
        )),
        Some(value) => {
            let copy = value.clone()?;
            Ok((
                GetEagerStateCommandResult::Value(Value { content: copy }),
                NotificationResult::Value(value),
            ))
        }
    }
}

// In replay the recorded read stands.
fn replay_value(
    active: &mut Active,
    alloc: Global,
    ignoring: bool,
    key: Bytes,
    name: ByteStr,
) -> Result<NotificationHandle, ValueReadError>
    ensures made { active.old.is_replaying ≡ true → ReadsFor (λ m. as_recorded m.left (Request.GetLazyState key m.completions name)) ignoring active.old result active.new }
    ensures spent { IsSpent active.old → ReadFailsSpent active.old result active.new }
    ensures found { FindsRead GetEagerStateCommand GetLazyStateCommand active.old result active.new }
    ensures told { IsAtCommand (type_in_replay GetEagerStateCommand GetLazyStateCommand active.old.commands.items) [] active.old.journal active.new.journal }
{
    let (id, handle) = begin_in_replay(
        active,
        MessageType::GetEagerStateCommand,
        MessageType::GetLazyStateCommand,
    )?;
    let expected = GetLazyStateCommandMessage {
        key,
        result_completion_id: id,
        name,
    };
    let read = match_read::<GetEagerStateCommandMessage>(active, alloc, expected, ignoring)?;
    ready_at_once(&mut active.results, id, value_known(read))?;
    Ok(handle)
}

// Of a key of which nothing is known the runtime is asked.
fn ask_value(
    active: &mut Active,
    alloc: Global,
    ignoring: bool,
    key: Bytes,
    name: ByteStr,
) -> Result<NotificationHandle, ValueReadError>
    ensures made { ReadsFor (λ m. Request.GetLazyState key m.completions name) ignoring active.old result active.new }
    ensures found { FindsRead GetEagerStateCommand GetLazyStateCommand active.old result active.new }
    ensures told { IsAtCommand GetLazyStateCommand name active.old.journal active.new.journal }
{
    let (name, result_completion_id, handle) = active.begin(
        MessageType::GetLazyStateCommand,
        name,
    )?;
    let command = GetLazyStateCommandMessage {
        key,
        result_completion_id,
        name,
    };
    lazy_read(put_read(active, alloc, command, ignoring, handle))
}

// What is known of a key is told, and is there at once.
fn tell_value(
    active: &mut Active,
    alloc: Global,
    ignoring: bool,
    key: Bytes,
    name: ByteStr,
    known: Option<Bytes>,
) -> Result<NotificationHandle, ValueReadError>
    ensures made { ReadsFor (λ _. Request.GetEagerState key known name) ignoring active.old result active.new }
    ensures found { FindsRead GetEagerStateCommand GetLazyStateCommand active.old result active.new }
    ensures told { IsAtCommand GetEagerStateCommand name active.old.journal active.new.journal }
{
    let (name, id, handle) = active.begin(MessageType::GetEagerStateCommand, name)?;
    let (held, shown) = value_twice(known)?;
    ready_at_once(&mut active.results, id, Some(shown))?;
    let command = GetEagerStateCommandMessage {
        key,
        name,
        result: Some(held),
    };
    eager_read(put_read(active, alloc, command, ignoring, handle))
}

// Behind the journal the read is written, with what is known.
fn write_value(
    active: &mut Active,
    alloc: Global,
    ignoring: bool,
    key: ByteStr,
    name: ByteStr,
) -> Result<NotificationHandle, ValueReadError>
    ensures made { ReadsFor (λ m. fresh_value m.start m.done m.completions key name) ignoring active.old result active.new }
    ensures found { FindsRead GetEagerStateCommand GetLazyStateCommand active.old result active.new }
    ensures told { IsAtCommand (type_behind GetEagerStateCommand GetLazyStateCommand (is_known active.old.state key)) name active.old.journal active.new.journal }
{
    let known = active.state.get(&key);
    let key = key.into_bytes();
    match known {
        Ok(EagerGetState::Unknown) => ask_value(active, alloc, ignoring, key, name),
        Ok(EagerGetState::Empty) => tell_value(active, alloc, ignoring, key, name, None),
        Ok(EagerGetState::Value(value)) => {
            tell_value(active, alloc, ignoring, key, name, Some(value))
        }
        Err(refused) => {
            drop(active.ask(MessageType::GetEagerStateCommand, name));
            Err(ReadError::from(refused))
        }
    }
}

/// Reads a key of the object's state: the handle's notification brings the value, or that there is none.
///
/// Behind the journal it is there at once where the key is known. In replay the recorded read stands, with what was known of it
/// then.
pub fn state_get(
    active: &mut Active,
    alloc: Global,
    checks_off: bool,
    key: ByteStr,
    name: Option<ByteStr>,
    options: PayloadOptions,
) -> Result<NotificationHandle, ValueReadError>
    ensures made { ReadsByCall checks_off (Call.StateGet key name options) active.old result active.new }
    ensures spent { IsSpent active.old → ReadFailsSpent active.old result active.new }
    ensures found { FindsRead GetEagerStateCommand GetLazyStateCommand active.old result active.new }
    ensures told { IsAtRead GetEagerStateCommand GetLazyStateCommand active.old.is_replaying (is_known active.old.state key) (name_or_empty name) active.old active.new }
{
    let ignoring = ignores(checks_off, options);
    let name = or_empty(name);
    if active.is_replaying {
        return replay_value(active, alloc, ignoring, key.into_bytes(), name);
    }
    write_value(active, alloc, ignoring, key, name)
}
