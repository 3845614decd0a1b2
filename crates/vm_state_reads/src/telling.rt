// How errors tell a read in replay.
ghost use Rattle.std.specs.Prelude.{◌≡◌, IfOk, IfErr, []};
ghost use Rattle.vm_calls.specs.Active.{asking, IsAtCommand, TakesCompletion, LacksCompletions};
ghost use Rattle.vm_calls.specs.declared.call_error.NumberError.TheVariants.{IdsExhausted};
ghost use Rattle.vm_state_reads.specs.ReadDescriptions.{begins_with, type_in_replay};

use bytes::ByteStr;
use journal_model::NotificationHandle;
use protocol_stream::RawMessage;
use protocol_types::MessageType;
use std::collections::VecDeque;
use vm_calls::{Active, NumberError};

// Whether the next recorded command is of this type.
fn begins_with(ty: MessageType, commands: &VecDeque<RawMessage>) -> bool
    ensures { result ≡ begins_with ty commands.now.items }
{
    match commands.front() {
        Some(message) => u16::from(message.ty()) == u16::from(ty),
        None => false,
    }
}

// The type by which a read is told.
fn type_in_replay(
    eager: MessageType,
    lazy: MessageType,
    commands: &VecDeque<RawMessage>,
) -> MessageType
    ensures { result ≡ type_in_replay eager lazy commands.now.items }
{
    if begins_with(lazy, commands) {
        lazy
    } else {
        eager
    }
}

/// Begins a read in replay: takes its completion's id and the handle that stands for it.
pub(crate) fn begin_in_replay(
    active: &mut Active,
    eager: MessageType,
    lazy: MessageType,
) -> Result<(u32, NotificationHandle), NumberError>
    ensures taken { IfOk result (λ taken. TakesCompletion taken (asking (type_in_replay eager lazy active.old.commands.items) [] active.old) active.new) }
    ensures err { IfErr result (λ error. error ≡ IdsExhausted → LacksCompletions 1 active.old) }
    ensures output { active.new.output ≡ active.old.output }
    ensures told { IsAtCommand (type_in_replay eager lazy active.old.commands.items) [] active.old.journal active.new.journal }
{
    let ty = type_in_replay(eager, lazy, &active.commands);
    let (unnamed, id, handle) = active.begin(ty, ByteStr::new())?;
    drop(unnamed);
    Ok((id, handle))
}
