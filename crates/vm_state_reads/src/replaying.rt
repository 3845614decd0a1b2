// Taking the recorded read.
ghost use Rattle.std.specs.Prelude.{◌≡◌, true, List, [], Some, IfOk, IfErr};
ghost use Rattle.protocol_types.specs.declared.message_type.MessageType.{MessageType};
ghost use Rattle.protocol_messages.specs.RecordMessage.{type_of_record};
ghost use Rattle.vm_calls.specs.MismatchedCommands.{command_place};
ghost use Rattle.vm_state_reads.specs.MismatchedReads.{TellsUnread};
ghost use Rattle.vm_calls.specs.Words.{Request};
ghost use Rattle.vm_calls.specs.Active.{left_of, still_replays, IsActiveSettled};
ghost use Rattle.vm_state_reads.specs.RecordedReads.{MatchesIn, TellsNext};
ghost use Rattle.vm_state_reads.specs.SpentReplay.{MatchFindsNone};

use protocol_stream::RawMessage;
use std::alloc::Global;
use std::collections::VecDeque;
use vm_calls::Active;
use vm_commands::{EagerRead, StateRead, StateReadError, pop_state_read};

// Whether recorded commands are left.
fn are_left(commands: &VecDeque<RawMessage>) -> bool
    ensures { result ≡ still_replays true commands.now.items }
{
    !commands.is_empty()
}

/// Matches a read with the next recorded command, which stands for it: its kind, and what was known, are the record's. Where the
/// last recorded command was matched, the attempt replays no more.
pub(crate) fn match_read<E: EagerRead>(
    active: &mut Active,
    alloc: Global,
    expected: E::Lazy,
    ignoring: bool,
) -> Result<StateRead<E::Known>, StateReadError<E::Lazy, E>>
    ensures matched { (made : Request) (written : List Request) → E.Lazy.request_of expected ≡ Some made → active.old.is_replaying ≡ true → IsActiveSettled active.old
        → MatchesIn ignoring made written active.old result active.new }
    ensures next { IfOk result (TellsNext E.Lazy.request_of E.request_of E.known (left_of active.old)) }
    ensures spent { active.old.commands.items ≡ [] → MatchFindsNone result }
    ensures found { (eager : MessageType) (lazy : MessageType) → type_of_record E.record_type ≡ Some eager → type_of_record E.Lazy.record_type ≡ Some lazy
        → IfErr result (λ error. TellsUnread eager lazy (command_place active.new.journal) active.old.commands.items error) }
    ensures output { active.new.output ≡ active.old.output }
    ensures journal { active.new.journal ≡ active.old.journal }
{
    let index = active.journal.command_index();
    match pop_state_read::<E>(alloc, &mut active.commands, index, expected, ignoring) {
        Ok(read) => {
            active.is_replaying = are_left(&active.commands);
            Ok(read)
        }
        Err(error) => Err(error),
    }
}
