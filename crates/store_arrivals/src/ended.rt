//! The ends of the sleeps of one invocation: their entries, and how far the invocation is then.

ghost use Rattle.std.specs.Prelude.{◌≡◌, ◌+◌, ◌<◌, ◌≤◌, ◌^◌, ◌++◌, ◌∷◌, [], true, false, length, map, IfErr, IfOk, OnOk};
ghost use Rattle.store_tables.specs.declared.row.Write.{Write};
ghost use Rattle.store_model.specs.Steps.{grown};
ghost use Rattle.store_refusals.specs.Causes.{IsUnasked};
ghost use Rattle.store_invocations.specs.Rows.{Decides};
ghost use Rattle.store_arrivals.specs.Arrivals.{HasFewArrivals};
ghost use Rattle.store_arrivals.specs.SleepEnds.{end_row, end_rows};
ghost use Rattle.store_arrivals.specs.PreparedTicks.{AreEndsOf, progress_writes, room_tests};

use crate::payload::{kept_bytes, payload_of};
use bytes::ByteStr;
use journal_model::{Notification, NotificationId, NotificationResult};
use protocol_stream::MessageType;
use std::alloc::{AllocError, Global};
use store_refusals::{Cause, Refusal};
use store_tables::{EntryRow, InvocationRow, Progress, Write};

/// The entry of a sleep's end, behind so many arrivals.
fn end_of(
    alloc: Global,
    id: &ByteStr,
    place: u32,
    before: u32,
    completion: u32,
) -> Result<EntryRow, AllocError>
    requires { 1 + before < 2 ^ 32 }
    ensures { IfOk result (λ entry. entry ≡ end_row id.now place before completion) }
{
    let payload = payload_of(
        alloc,
        Notification {
            id: NotificationId::CompletionId(completion),
            result: NotificationResult::Void,
        },
    )?;
    Ok(EntryRow {
        invocation: id.clone()?,
        place,
        kind: MessageType::SleepCompletionNotification,
        payload: kept_bytes(payload)?,
        completion: None,
        second_completion: None,
        answered: Some(completion),
        moment: 0,
        arrival: Some(1 + before),
    })
}

/// The ends of these sleeps, from a place on and behind so many arrivals: their entries behind other writes.
fn end_each(
    alloc: Global,
    id: &ByteStr,
    place: u32,
    before: u32,
    completions: &[u32],
    writes: &mut Vec<Write>,
) -> Result<(), AllocError>
    requires room { place + length completions.now < 2 ^ 32 }
    requires few { before ≤ place }
    ensures { OnOk result (writes.new.items ≡ writes.old.items ++ map Write.AddEntry (end_rows id.now place before completions.now)) }
{
    let mut next = place;
    let mut known = before;
    for completion in completions {
        let entry = end_of(alloc, id, next, known, *completion)?;
        writes.push(Write::AddEntry(entry))?;
        next += 1;
        known += 1;
    }
    Ok(())
}

/// How far an invocation is that has so many more arrivals.
fn with_arrivals(mut progress: Progress, count: u32) -> Progress
    requires { progress.entries + count < 2 ^ 32 }
    ensures { HasFewArrivals progress → result ≡ grown count count progress }
{
    progress.entries += count;
    progress.arrivals = progress.arrivals.saturating_add(count);
    progress.attempts_since_entry = 0;
    progress.first_moment = 0;
    progress
}

/// Whether some of so many more entries have no place.
fn lacks_places(entries: u32, more: usize) -> bool
    ensures yes { result ≡ true → 2 ^ 32 ≤ entries + more }
    ensures no { result ≡ false → entries + more < 2 ^ 32 }
{
    more > (u32::MAX - entries) as usize
}

/// How far the invocation is then, written behind the ends of its sleeps.
fn set_progress(id: ByteStr, progress: Progress, writes: &mut Vec<Write>) -> Result<(), AllocError>
    ensures { OnOk result (writes.new.items ≡ writes.old.items ++ Write.SetProgress id progress ∷ []) }
{
    writes.push(Write::SetProgress { id, progress })?;
    Ok(())
}

/// The ends of these sleeps where they have places, and how far the invocation is then.
fn end_in_room(
    alloc: Global,
    own: ByteStr,
    progress: Progress,
    completions: &[u32],
    writes: &mut Vec<Write>,
) -> Result<(), AllocError>
    requires { progress.entries + length completions.now < 2 ^ 32 }
    ensures { HasFewArrivals progress → OnOk result (writes.new.items ≡ writes.old.items ++ progress_writes own progress completions.now) }
{
    let before = progress.arrivals.min(progress.entries);
    match end_each(alloc, &own, progress.entries, before, completions, writes) {
        Ok(()) => set_progress(
            own,
            with_arrivals(progress, completions.len() as u32),
            writes,
        ),
        Err(refused) => {
            drop(own);
            drop(progress);
            Err(refused)
        }
    }
}

/// The ends of these sleeps of the invocation that has this row, written behind other writes.
pub(crate) fn end_sleeps(
    alloc: Global,
    row: InvocationRow,
    completions: &[u32],
    writes: &mut Vec<Write>,
) -> Result<(), Refusal>
    ensures decided { Decides (room_tests row.progress.entries (length completions.now)) (λ _. AreEndsOf row completions.now writes.old.items writes.new.items) result }
    ensures unasked { IfErr result IsUnasked }
{
    let InvocationRow {
        id: own,
        object,
        version: _,
        seed: _,
        is_whole: _,
        progress,
    } = row;
    drop(object);
    let is_full = lacks_places(progress.entries, completions.len());
    if is_full {
        drop(own);
        drop(progress);
        return Err(Refusal::Cause(Cause::NumbersUsedUp));
    }
    match end_in_room(alloc, own, progress, completions, writes) {
        Ok(()) => Ok(()),
        Err(_) => Err(Refusal::OutOfMemory),
    }
}
