// One command is matched with the next that is recorded, or written.
ghost use Rattle.std.specs.Prelude.{List, ◌≡◌, ◌≤◌, ◌^◌, ◌↔◌, Some, false, length, OnOk, OnErr, IsErrOf};
ghost use Rattle.journal_model.specs.Request.{Request};
ghost use Rattle.journal_model.specs.Spelling.{request_frame};
ghost use Rattle.protocol_stream.specs.declared.encoder.EncodingError.TheVariants.{PayloadTooLong};
ghost use Rattle.vm_context.specs.Output.{with_command};
ghost use Rattle.vm_calls.specs.RequestPuts.{PutsAs, Puts, IsRequestTooLong, RefusesLong};

use crate::PutError;
use protocol_stream::{EncodingError, RawMessage};
use std::alloc::Global;
use std::collections::VecDeque;
use vm_commands::{Command, pop_journal_entry};
use vm_context::Output;

// Exactly the frame of the command's request.
fn write_command<M: Command>(
    alloc: Global,
    output: &mut Output,
    command: &M,
) -> Result<(), EncodingError>
    ensures ok { (request : Request) → M.request_of command.now ≡ Some request → OnOk result (output.new ≡ with_command (request_frame request) output.old) }
    ensures err { OnErr result (output.new ≡ output.old) }
    ensures too_long { (request : Request) → M.request_of command.now ≡ Some request → IsErrOf result PayloadTooLong ↔ IsRequestTooLong request output.old }
{
    output.send_command(alloc, command)
}

/// Matches a call's command with the next recorded one, or writes it.
///
/// While the machine replays, the next recorded command leaves the queue in every case, and nothing is written: the recorded
/// command stands for the call's. Behind the journal the frame is written, whole or not at all.
pub fn put<M: Command>(
    alloc: Global,
    is_replaying: bool,
    commands: &mut VecDeque<RawMessage>,
    output: &mut Output,
    command_index: i64,
    command: M,
    ignore_payload_equality: bool,
) -> Result<(), PutError<M>>
    ensures answer { PutsAs M.record_type M.of M.erased command_index ignore_payload_equality is_replaying command commands.old.items result }
    ensures put { (request : Request) (written : List Request) → M.request_of command ≡ Some request
        → Puts ignore_payload_equality is_replaying request written commands.old.items output.old result commands.new.items output.new }
    ensures too_long { (request : Request) → M.request_of command ≡ Some request → RefusesLong is_replaying request output.old result }
{
    if is_replaying {
        return match pop_journal_entry(
            alloc,
            commands,
            command_index,
            command,
            ignore_payload_equality,
        ) {
            Ok(recorded) => {
                drop(recorded);
                Ok(())
            }
            Err(error) => Err(PutError::Replay(error)),
        };
    }
    let written = write_command(alloc, output, &command);
    drop(command);
    match written {
        Ok(()) => Ok(()),
        Err(error) => Err(PutError::Encoding(error)),
    }
}
