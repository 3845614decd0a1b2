// The ids that an await waits for, and what is known of them.
ghost use Rattle.std.specs.Prelude.{◌≡◌, ◌++◌, ◌∷◌, [], map, IfOk, OnOk};
ghost use Rattle.std.specs.List.{flat_map};
ghost use Rattle.journal_model.specs.Awakeable.{awakeable_id};
ghost use Rattle.vm_awaits.specs.Views.{slots_of};
ghost use Rattle.vm_waiting.specs.WaitsFor.{ids_over};
ghost use Rattle.vm_progress.specs.UncompletedAwaits.{lists_over, started_id, known_of, known_run, known_runs, ids_in};

use bytes::{ByteStr, Bytes};
use protocol_errors::{AwaitedId, NotificationMetadata};
use protocol_messages::to_suspension_v6;
use protocol_records::{StartMessage, SuspensionMessage, SuspensionMessageV6};
use std::alloc::{AllocError, Global};
use vm_awaits::AsyncResultsState;
use vm_proposals::run_told;
use vm_runs::{Run, RunState};
use vm_types::awakeable_id;
use vm_waiting::WaitsFor;

// The signal of the cancellation, and the last of those that have a meaning of their own.
const CANCEL_SIGNAL: u32 = 1;

const LAST_RESERVED_SIGNAL: u32 = 16;

// Ids with what is known of them.
type KnownIds = Vec<(AwaitedId, NotificationMetadata)>;

/// The ids that are waited for, in a list for each kind; a handle that stands for nothing is left out.
pub(crate) fn lists_of(
    alloc: Global,
    results: &AsyncResultsState,
    waits: &WaitsFor,
) -> Result<SuspensionMessageV6, AllocError>
    ensures { IfOk result (λ lists. lists ≡ lists_over (ids_over (slots_of results.now) waits.now)) }
{
    let message = SuspensionMessage {
        awaiting_on: Some(waits.to_record(alloc, results)?),
    };
    let lists = to_suspension_v6(alloc, &message);
    drop(message);
    lists
}

fn push_completions(ids: &mut Vec<AwaitedId>, completions: &[u32]) -> Result<(), AllocError>
    ensures { OnOk result (ids.new.items ≡ ids.old.items ++ map AwaitedId.CompletionId completions.now) }
{
    for number in completions {
        ids.push(AwaitedId::CompletionId(*number))?;
    }
    Ok(())
}

fn push_signals(ids: &mut Vec<AwaitedId>, signals: &[u32]) -> Result<(), AllocError>
    ensures { OnOk result (ids.new.items ≡ ids.old.items ++ map AwaitedId.SignalId signals.now) }
{
    for number in signals {
        ids.push(AwaitedId::SignalId(*number))?;
    }
    Ok(())
}

fn push_names(ids: &mut Vec<AwaitedId>, names: &[ByteStr]) -> Result<(), AllocError>
    ensures { OnOk result (ids.new.items ≡ ids.old.items ++ map AwaitedId.SignalName names.now) }
{
    for name in names {
        ids.push(AwaitedId::SignalName(name.clone()?))?;
    }
    Ok(())
}

/// All ids of three lists.
pub(crate) fn ids_in(
    alloc: Global,
    lists: &SuspensionMessageV6,
) -> Result<Vec<AwaitedId>, AllocError>
    ensures { IfOk result (λ ids. ids.items ≡ ids_in lists.now) }
{
    let mut ids = Vec::new(alloc);
    push_completions(&mut ids, lists.waiting_completions.as_slice())?;
    push_signals(&mut ids, lists.waiting_signals.as_slice())?;
    push_names(&mut ids, lists.waiting_named_signals.as_slice())?;
    Ok(ids)
}

// The text of an awakeable of the invocation that was started.
fn awakeable_text(
    alloc: Global,
    start: &Option<StartMessage>,
    signal: u32,
) -> Result<ByteStr, AllocError>
    ensures { IfOk result (λ text. text ≡ awakeable_id (started_id start.now) signal) }
{
    match start {
        Some(start) => awakeable_id(alloc, &start.id, signal),
        None => awakeable_id(alloc, &Bytes::new(), signal),
    }
}

// What is known of a signal, if anything is.
fn push_known(
    alloc: Global,
    start: &Option<StartMessage>,
    known: &mut KnownIds,
    signal: u32,
) -> Result<(), AllocError>
    ensures { OnOk result (known.new.items ≡ known.old.items ++ known_of (started_id start.now) signal) }
{
    if signal == CANCEL_SIGNAL {
        known.push((
            AwaitedId::SignalId(signal),
            NotificationMetadata::Cancellation,
        ))?;
        return Ok(());
    }
    if signal > LAST_RESERVED_SIGNAL {
        let text = awakeable_text(alloc, start, signal)?;
        known.push((
            AwaitedId::SignalId(signal),
            NotificationMetadata::Awakeable(text),
        ))?;
    }
    Ok(())
}

// The command of a run is what is known of its completion.
fn push_run(known: &mut KnownIds, run: &Run) -> Result<(), AllocError>
    ensures { OnOk result (known.new.items ≡ known.old.items ++ known_run run.now ∷ []) }
{
    let command = run_told(run)?;
    known.push((
        AwaitedId::CompletionId(run.completion),
        NotificationMetadata::RelatedToCommand(command),
    ))?;
    Ok(())
}

// What is known of the runs whose outcomes were not proposed.
fn known_runs(alloc: Global, runs: &RunState) -> Result<KnownIds, AllocError>
    ensures { IfOk result (λ known. known.items ≡ known_runs runs.now.table) }
{
    let mut known = Vec::new(alloc);
    for run in runs.unproposed().values() {
        push_run(&mut known, run)?;
    }
    Ok(known)
}

/// What is known of runs and of signals.
pub(crate) fn known_ids(
    alloc: Global,
    start: &Option<StartMessage>,
    runs: &RunState,
    signals: &[u32],
) -> Result<KnownIds, AllocError>
    ensures { IfOk result (λ known. known.items ≡ known_runs runs.now.table ++ flat_map (known_of (started_id start.now)) signals.now) }
{
    let mut known = known_runs(alloc, runs)?;
    for signal in signals {
        push_known(alloc, start, &mut known, *signal)?;
    }
    Ok(known)
}
