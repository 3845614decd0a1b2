//! What the arrival of a notification makes ready, of an open invocation.

ghost use Rattle.std.specs.Prelude.{◌≡◌, ◌+◌, ◌<◌, ◌^◌, ◌∷◌, [], IfErr, IfOk};
ghost use Rattle.journal_model.specs.Spelling.{notification_payload};
ghost use Rattle.store_tables.specs.declared.row.Write.{Write};
ghost use Rattle.store_model.specs.KeptRecords.{answered_by};
ghost use Rattle.store_model.specs.Steps.{grown};
ghost use Rattle.store_refusals.specs.Causes.{IsUnasked};
ghost use Rattle.store_invocations.specs.Rows.{Decides, payload_tests};
ghost use Rattle.store_arrivals.specs.Arrivals.{HasFewArrivals, IsArrival, IsArrivalWritten, arrival_tests, entry_of_arrival};

use crate::payload::{kept_bytes, payload_of};
use bytes::{ByteStr, Bytes};
use journal_model::{Notification, NotificationId};
use protocol_stream::MessageType;
use std::alloc::{AllocError, Global};
use store_refusals::{Cause, Refusal};
use store_tables::{EntryRow, InvocationRow, Progress, Write};

/// What an arrival writes.
#[derive(Debug, Drop)]
pub struct PreparedArrival {
    pub writes: Vec<Write>,
    /// The place of its entry.
    pub place: u32,
}

fn answered_id(id: &NotificationId) -> Option<u32>
    ensures { result ≡ answered_by id.now }
{
    match id {
        NotificationId::CompletionId(number) => Some(*number),
        _ => None,
    }
}

/// The payload of an arrival, if its length fits 32 bits.
fn arrival_payload(alloc: Global, arrival: Notification) -> Result<Bytes, Refusal>
    ensures decided { Decides (payload_tests (notification_payload arrival)) (λ payload. payload ≡ notification_payload arrival) result }
    ensures unasked { IfErr result IsUnasked }
{
    let payload = payload_of(alloc, arrival)?;
    if payload.len() > u32::MAX as usize {
        return Err(Refusal::Cause(Cause::PayloadTooLong));
    }
    let kept = kept_bytes(payload)?;
    Ok(kept)
}

/// The entry of an arrival that has this payload.
fn entry_of(
    row: &InvocationRow,
    ty: MessageType,
    answered: Option<u32>,
    payload: Bytes,
) -> Result<EntryRow, AllocError>
    requires { row.now.progress.entries + 1 < 2 ^ 32 }
    ensures { HasFewArrivals row.now.progress → IfOk result (λ entry. entry ≡ entry_of_arrival row.now ty answered payload) }
{
    Ok(EntryRow {
        invocation: row.id.clone()?,
        place: row.progress.entries,
        kind: ty,
        payload,
        completion: None,
        second_completion: None,
        answered,
        moment: 0,
        arrival: Some(1_u32.saturating_add(row.progress.arrivals)),
    })
}

/// How far an invocation is that has one more arrival.
fn with_arrival(mut progress: Progress) -> Progress
    requires { progress.entries + 1 < 2 ^ 32 }
    ensures { HasFewArrivals progress → result ≡ grown 1 1 progress }
{
    progress.entries += 1;
    progress.arrivals = progress.arrivals.saturating_add(1);
    progress.attempts_since_entry = 0;
    progress.first_moment = 0;
    progress
}

fn two_writes(
    alloc: Global,
    entry: EntryRow,
    id: ByteStr,
    progress: Progress,
) -> Result<Vec<Write>, AllocError>
    ensures { IfOk result (λ writes. writes.items ≡ Write.AddEntry entry ∷ Write.SetProgress id progress ∷ []) }
{
    let mut writes = Vec::new(alloc);
    writes.push(Write::AddEntry(entry))?;
    writes.push(Write::SetProgress { id, progress })?;
    Ok(writes)
}

fn writes_of(alloc: Global, row: InvocationRow, entry: EntryRow) -> Result<Vec<Write>, AllocError>
    requires { row.progress.entries + 1 < 2 ^ 32 }
    ensures { HasFewArrivals row.progress → IfOk result (λ writes. writes.items ≡ Write.AddEntry entry ∷ Write.SetProgress row.id (grown 1 1 row.progress) ∷ []) }
{
    let InvocationRow {
        id,
        object,
        version: _,
        seed: _,
        is_whole: _,
        progress,
    } = row;
    drop(object);
    two_writes(alloc, entry, id, with_arrival(progress))
}

/// The writes of an arrival that has this payload.
fn arrival_with(
    alloc: Global,
    row: InvocationRow,
    ty: MessageType,
    answered: Option<u32>,
    payload: Bytes,
) -> Result<PreparedArrival, AllocError>
    requires { row.progress.entries + 1 < 2 ^ 32 }
    ensures { IfOk result (IsArrivalWritten row ty answered payload) }
{
    let place = row.progress.entries;
    match entry_of(&row, ty, answered, payload) {
        Ok(entry) => Ok(PreparedArrival {
            writes: writes_of(alloc, row, entry)?,
            place,
        }),
        Err(refused) => {
            drop(row);
            Err(refused)
        }
    }
}

/// What an arrival makes ready where one more entry has a place.
fn arrival_in(
    alloc: Global,
    row: InvocationRow,
    ty: MessageType,
    arrival: Notification,
) -> Result<PreparedArrival, Refusal>
    requires { row.progress.entries + 1 < 2 ^ 32 }
    ensures decided { Decides (payload_tests (notification_payload arrival)) (IsArrival row ty arrival) result }
    ensures unasked { IfErr result IsUnasked }
{
    let answered = answered_id(&arrival.id);
    match arrival_payload(alloc, arrival) {
        Ok(payload) => {
            let made = arrival_with(alloc, row, ty, answered, payload)?;
            Ok(made)
        }
        Err(why) => {
            drop(row);
            Err(why)
        }
    }
}

/// What an arrival makes ready, of the open invocation that has this row, as a frame of this type: its entry behind the others,
/// and how far the invocation is then.
pub fn prepare_arrival(
    alloc: Global,
    row: InvocationRow,
    ty: MessageType,
    arrival: Notification,
) -> Result<PreparedArrival, Refusal>
    ensures decided { Decides (arrival_tests row arrival) (IsArrival row ty arrival) result }
    ensures unasked { IfErr result IsUnasked }
{
    let has_room = row.progress.entries < u32::MAX;
    if has_room {
        arrival_in(alloc, row, ty, arrival)
    } else {
        drop(row);
        drop(arrival);
        Err(Refusal::Cause(Cause::NumbersUsedUp))
    }
}
