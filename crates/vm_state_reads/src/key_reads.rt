// The read of all keys.
ghost use Rattle.std.specs.Prelude.{◌≡◌, true, not, Some, [], IfOk};
ghost use Rattle.vm_calls.specs.Words.{Call, Request};
ghost use Rattle.journal_model.specs.Run.{name_or_empty};
ghost use Rattle.attempt_model.specs.Requests.{fresh_keys};
ghost use Rattle.protocol_types.specs.declared.message_type.MessageType.TheVariants.{GetEagerStateKeysCommand, GetLazyStateKeysCommand};
ghost use Rattle.vm_commands.specs.RecordedCommands.{as_recorded};
ghost use Rattle.vm_calls.specs.Active.{IsAtCommand};
ghost use Rattle.vm_calls.specs.SpentReplay.{IsSpent};
ghost use Rattle.vm_state_reads.specs.ReadAnswers.{ReadsByCall, ReadsFor};
ghost use Rattle.vm_state_reads.specs.RecordedReads.{keys_known};
ghost use Rattle.vm_state_reads.specs.SpentReplay.{ReadFailsSpent};
ghost use Rattle.vm_state_reads.specs.MismatchedReads.{FindsRead};
ghost use Rattle.vm_state_reads.specs.ReadDescriptions.{type_in_replay, type_behind, IsAtRead};

use crate::ReadError;
use crate::known::{put_read, ready_at_once};
use crate::read_error::{eager_read, lazy_read};
use crate::replaying::match_read;
use crate::telling::begin_in_replay;
use bytes::{ByteStr, Bytes};
use journal_model::{NotificationHandle, NotificationResult};
use protocol_commands::{GetEagerStateKeysCommandMessage, GetLazyStateKeysCommandMessage};
use protocol_records::StateKeys;
use protocol_types::MessageType;
use sequence::Sequence;
use std::alloc::{AllocError, Global};
use vm_calls::{Active, or_empty};
use vm_commands::StateRead;
use vm_context::EagerGetStateKeys;

/// Why the read of all keys fails.
pub type KeysReadError = ReadError<GetLazyStateKeysCommandMessage, GetEagerStateKeysCommandMessage>;

// What was known of a recorded read, as its result.
fn keys_known(read: StateRead<StateKeys>) -> Option<NotificationResult>
    ensures { result ≡ keys_known read }
{
    match read {
        StateRead::Lazy => None,
        StateRead::Eager(found) => Some(NotificationResult::StateKeys(found.keys)),
    }
}

// The keys as the bytes that they are. They share their memory.
fn to_bytes(alloc: Global, keys: &[ByteStr]) -> Result<Sequence<Bytes>, AllocError>
    ensures { IfOk result (λ made. made ≡ keys.now) }
{
    let mut made = Sequence::new(alloc);
    for key in keys {
        made.push(key.clone()?.into_bytes())?;
    }
    Ok(made)
}

// The known keys, as their command holds them and as its result.
fn keys_twice(
    alloc: Global,
    keys: &Sequence<ByteStr>,
) -> Result<(StateKeys, NotificationResult), AllocError>
    ensures held { IfOk result (λ made. made.0.keys ≡ keys.now) }
    ensures shown { IfOk result (λ made. made.1 ≡ NotificationResult.StateKeys keys.now) }
{
    let held = StateKeys {
        keys: to_bytes(alloc, keys.as_slice())?,
    };
    let shown = NotificationResult::StateKeys(to_bytes(alloc, keys.as_slice())?);
    Ok((held, shown))
}

// In replay the recorded read stands.
fn replay_keys(
    active: &mut Active,
    alloc: Global,
    ignoring: bool,
    name: ByteStr,
) -> Result<NotificationHandle, KeysReadError>
    ensures made { active.old.is_replaying ≡ true → ReadsFor (λ m. as_recorded m.left (Request.GetLazyStateKeys m.completions name)) ignoring active.old result active.new }
    ensures spent { IsSpent active.old → ReadFailsSpent active.old result active.new }
    ensures found { FindsRead GetEagerStateKeysCommand GetLazyStateKeysCommand active.old result active.new }
    ensures told { IsAtCommand (type_in_replay GetEagerStateKeysCommand GetLazyStateKeysCommand active.old.commands.items) [] active.old.journal active.new.journal }
{
    let (id, handle) = begin_in_replay(
        active,
        MessageType::GetEagerStateKeysCommand,
        MessageType::GetLazyStateKeysCommand,
    )?;
    let expected = GetLazyStateKeysCommandMessage {
        result_completion_id: id,
        name,
    };
    let read = match_read::<GetEagerStateKeysCommandMessage>(active, alloc, expected, ignoring)?;
    ready_at_once(&mut active.results, id, keys_known(read))?;
    Ok(handle)
}

// Where not all keys are known the runtime is asked.
fn ask_keys(
    active: &mut Active,
    alloc: Global,
    ignoring: bool,
    name: ByteStr,
) -> Result<NotificationHandle, KeysReadError>
    ensures made { ReadsFor (λ m. Request.GetLazyStateKeys m.completions name) ignoring active.old result active.new }
    ensures found { FindsRead GetEagerStateKeysCommand GetLazyStateKeysCommand active.old result active.new }
    ensures told { IsAtCommand GetLazyStateKeysCommand name active.old.journal active.new.journal }
{
    let (name, result_completion_id, handle) = active.begin(
        MessageType::GetLazyStateKeysCommand,
        name,
    )?;
    let command = GetLazyStateKeysCommandMessage {
        result_completion_id,
        name,
    };
    lazy_read(put_read(active, alloc, command, ignoring, handle))
}

// The known keys are told, and are there at once.
fn tell_keys(
    active: &mut Active,
    alloc: Global,
    ignoring: bool,
    name: ByteStr,
    keys: &Sequence<ByteStr>,
) -> Result<NotificationHandle, KeysReadError>
    ensures made { ReadsFor (λ _. Request.GetEagerStateKeys keys.now name) ignoring active.old result active.new }
    ensures found { FindsRead GetEagerStateKeysCommand GetLazyStateKeysCommand active.old result active.new }
    ensures told { IsAtCommand GetEagerStateKeysCommand name active.old.journal active.new.journal }
{
    let (name, id, handle) = active.begin(MessageType::GetEagerStateKeysCommand, name)?;
    let (held, shown) = keys_twice(alloc, keys)?;
    ready_at_once(&mut active.results, id, Some(shown))?;
    let command = GetEagerStateKeysCommandMessage {
        name,
        value: Some(held),
    };
    eager_read(put_read(active, alloc, command, ignoring, handle))
}

// Behind the journal the read is written, with what is known.
fn write_keys(
    active: &mut Active,
    alloc: Global,
    ignoring: bool,
    name: ByteStr,
) -> Result<NotificationHandle, KeysReadError>
    ensures made { ReadsFor (λ m. fresh_keys m.start m.done m.completions name) ignoring active.old result active.new }
    ensures found { FindsRead GetEagerStateKeysCommand GetLazyStateKeysCommand active.old result active.new }
    ensures told { IsAtCommand (type_behind GetEagerStateKeysCommand GetLazyStateKeysCommand (not active.old.state.is_partial)) name active.old.journal active.new.journal }
{
    match active.state.get_keys(alloc) {
        Ok(EagerGetStateKeys::Unknown) => ask_keys(active, alloc, ignoring, name),
        Ok(EagerGetStateKeys::Keys(keys)) => tell_keys(active, alloc, ignoring, name, &keys),
        Err(refused) => {
            drop(active.ask(MessageType::GetEagerStateKeysCommand, name));
            Err(ReadError::from(refused))
        }
    }
}

/// Reads the keys of the object's state that have a value, in byte order: the handle's notification brings them.
///
/// Behind the journal they are there at once where all are known. In replay the recorded read stands, with what was known of it
/// then.
pub fn state_get_keys(
    active: &mut Active,
    alloc: Global,
    checks_off: bool,
    name: Option<ByteStr>,
) -> Result<NotificationHandle, KeysReadError>
    ensures made { ReadsByCall checks_off (Call.StateGetKeys name) active.old result active.new }
    ensures spent { IsSpent active.old → ReadFailsSpent active.old result active.new }
    ensures found { FindsRead GetEagerStateKeysCommand GetLazyStateKeysCommand active.old result active.new }
    ensures told { IsAtRead GetEagerStateKeysCommand GetLazyStateKeysCommand active.old.is_replaying (not active.old.state.is_partial) (name_or_empty name) active.old active.new }
{
    let name = or_empty(name);
    if active.is_replaying {
        return replay_keys(active, alloc, checks_off, name);
    }
    write_keys(active, alloc, checks_off, name)
}
