// The input is read, which is the first command of each journal.
ghost use Rattle.std.specs.Prelude.{◌≡◌, ◌-◌, ◌^◌, [], min, List, drop, length, OnErr};
ghost use Rattle.protocol_types.specs.declared.message_type.MessageType.TheVariants.{InputCommand};
ghost use Rattle.vm_calls.specs.Active.{IsAtCommand, still_replays};
ghost use Rattle.vm_commands.specs.NextCommand.{next_of};
ghost use Rattle.vm_context.specs.Journal.{after_command, after_skip};
ghost use Rattle.vm_machine.specs.Input.{TakesInput, skipped, ReadsInput};

use bytes::ByteStr;
use protocol_errors::UnavailableEntryError;
use protocol_messages::RawMessageExt;
use protocol_records::InputCommandMessage;
use protocol_stream::{DecodingError, RawMessage};
use protocol_types::MessageType;
use std::alloc::Global;
use std::collections::VecDeque;
use vm_calls::Active;
use vm_types::JournalReplay;

/// Why the input is not read.
#[derive(Debug, Drop)]
pub enum InputError {
    /// No command was recorded.
    Unavailable(UnavailableEntryError),
    /// The first that was recorded is another, or its payload is none of an input.
    Decoding(DecodingError),
    OutOfMemory,
}

// The message as an input.
fn to_input(
    alloc: Global,
    message: Option<RawMessage>,
    command_index: i64,
) -> Result<InputCommandMessage, InputError>
    ensures { TakesInput command_index message result }
{
    let Some(message) = message else {
        return Err(InputError::Unavailable(UnavailableEntryError::new(MessageType::InputCommand)));
    };
    let read = message.decode_to::<InputCommandMessage>(alloc, command_index);
    drop(message);
    match read {
        Ok(input) => Ok(input),
        Err(DecodingError::OutOfMemory) => Err(InputError::OutOfMemory),
        Err(error) => Err(InputError::Decoding(error)),
    }
}

// The first message leaves, if there is one.
fn take_first(commands: &mut VecDeque<RawMessage>) -> Option<RawMessage>
    ensures first { result ≡ next_of commands.old.items }
    ensures left { commands.new.items ≡ drop 1 commands.old.items }
{
    commands.pop_front()
}

// How many recorded commands are gone past.
fn count(commands: &VecDeque<RawMessage>) -> u32
    ensures { result ≡ skipped commands.now.items }
{
    u32::try_from(commands.len()).unwrap_or(u32::MAX)
}

// What was recorded besides the input is not replayed.
fn skip_others(active: &mut Active)
    ensures commands { active.new.commands.items ≡ [] }
    ensures others { active.new ≡ record active.old { commands = active.new.commands; journal = after_skip (skipped active.old.commands.items) active.old.journal } }
{
    active.journal.skip_to(count(&active.commands));
    active.commands.clear();
}

/// Reads the input. Where the journal is not replayed, all other commands that were recorded are gone past.
///
/// The first recorded command leaves also where it is no input.
pub fn read_input(
    active: &mut Active,
    alloc: Global,
    replay: JournalReplay,
) -> Result<InputCommandMessage, InputError>
    ensures input { ReadsInput replay active.old result active.new }
    ensures told { OnErr result (IsAtCommand InputCommand [] active.old.journal active.new.journal) }
{
    active
        .journal
        .transition(MessageType::InputCommand, ByteStr::new());
    let message = take_first(&mut active.commands);
    let input = to_input(alloc, message, active.journal.command_index())?;
    if let JournalReplay::Disabled = replay {
        skip_others(active);
    }
    active.is_replaying = active.is_replaying && !active.commands.is_empty();
    Ok(input)
}
