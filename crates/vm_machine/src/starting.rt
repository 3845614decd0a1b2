// The start of an attempt comes.
ghost use Rattle.std.specs.Prelude.{◌≡◌, [], true, IfOk, OnErr};
ghost use Rattle.vm_awaits.specs.Views.{results_of};
ghost use Rattle.vm_machine.specs.StartReceipt.{IsFresh, ReadsStartMessage, ComesStart};

use crate::entry_error::{EntryError, unread};
use journal_model::SignalDelivery;
use protocol_errors::UNEXPECTED_INPUT_MESSAGE;
use protocol_messages::RawMessageExt;
use protocol_records::StartMessage;
use protocol_stream::RawMessage;
use protocol_types::Version;
use std::alloc::{AllocError, Global};
use std::collections::VecDeque;
use std::mem::replace;
use vm_awaits::AsyncResultsState;
use vm_calls::{Active, Children};
use vm_start::{EagerState, Journal, Output, Phase, Started, read_start};

/// What is kept before anything has come.
pub fn fresh_active(
    alloc: Global,
    version: Version,
    delivery: SignalDelivery,
) -> Result<Active, AllocError>
    ensures { IfOk result (IsFresh version delivery) }
{
    Ok(Active {
        is_replaying: true,
        commands: VecDeque::new(alloc),
        results: AsyncResultsState::new(alloc, delivery),
        state: EagerState::new(alloc, true, Vec::new(alloc))?,
        journal: Journal::new(),
        output: Output::new(alloc, version),
        children: Children::new(alloc),
    })
}

// What the message tells of an attempt.
fn read(alloc: Global, message: RawMessage) -> Result<Started, EntryError>
    ensures { ReadsStartMessage message result }
{
    let decoded = message.decode_to::<StartMessage>(alloc, 0);
    drop(message);
    match decoded {
        Err(error) => Err(unread(error)),
        Ok(start) => match read_start(alloc, start) {
            Ok(started) => Ok(started),
            Err(error) => Err(EntryError::Start(error)),
        },
    }
}

/// The start of the attempt comes: what it shows of the object's state is known, and the entries that it announces are waited for.
/// Answers the start, without its state.
pub fn receive_start(
    phase: &mut Phase,
    active: &mut Active,
    alloc: Global,
    message: RawMessage,
) -> Result<StartMessage, EntryError>
    ensures { ComesStart message phase.old active.old result phase.new active.new }
{
    match phase {
        Phase::WaitingStart => {
            let Started { start, state } = read(alloc, message)?;
            drop(replace(&mut active.state, state));
            drop(replace(
                phase,
                Phase::WaitingReplayEntries {
                    left: start.known_entries,
                },
            ));
            Ok(start)
        }
        Phase::WaitingReplayEntries { .. } | Phase::Active | Phase::Closed | Phase::Failed(_) => {
            drop(message);
            Err(EntryError::Fixed(UNEXPECTED_INPUT_MESSAGE))
        }
    }
}
