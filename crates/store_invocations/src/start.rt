//! The start of an attempt.

ghost use Rattle.std.specs.Prelude.{◌≡◌, map, IfOk, IfErr};
ghost use Rattle.store_invocations.specs.Start.{since_first, start_frame_payload, start_record, state_record};
ghost use Rattle.journal_model.specs.Spelling.{frame_bytes};
ghost use Rattle.store_invocations.specs.Rows.{Decides, payload_tests};
ghost use Rattle.store_refusals.specs.Causes.{IsUnasked};

use crate::frame::payload_frame;
use bytes::Bytes;
use protocol_records::{StartMessage, StateEntry};
use protocol_stream::MessageType;
use protocol_wire::encode;
use sequence::Sequence;
use std::alloc::{AllocError, Global};
use store_refusals::Refusal;
use store_tables::{InvocationRow, Progress, StateRow};

/// A value of the state as the record of a start has it.
fn entry_of(row: &StateRow) -> Result<StateEntry, AllocError>
    ensures { IfOk result (λ entry. entry ≡ state_record row.now) }
{
    Ok(StateEntry {
        key: row.key.clone()?,
        value: row.value.clone()?,
    })
}

/// The state as the record of a start has it.
fn entries_of(alloc: Global, states: &[StateRow]) -> Result<Sequence<StateEntry>, AllocError>
    ensures { IfOk result (λ entries. entries ≡ map state_record states.now) }
{
    let mut entries = Sequence::new(alloc);
    for row in states {
        entries.push(entry_of(row)?)?;
    }
    Ok(entries)
}

/// How long before this moment the first attempt since the last entry was begun.
fn since_first(progress: &Progress, now: u64) -> u64
    ensures { result ≡ since_first progress.now now }
{
    if progress.attempts_since_entry == 0 {
        0
    } else {
        now.saturating_sub(progress.first_moment)
    }
}

/// The start of an attempt that is begun at this moment, with this state.
fn start_record(
    alloc: Global,
    row: &InvocationRow,
    states: &[StateRow],
    now: u64,
) -> Result<StartMessage, AllocError>
    ensures { IfOk result (λ start. start ≡ start_record row.now states.now now) }
{
    let progress = &row.progress;
    Ok(StartMessage {
        id: row.id.as_bytes().clone()?,
        debug_id: row.id.clone()?,
        known_entries: progress.entries,
        state_map: entries_of(alloc, states)?,
        partial_state: !row.is_whole,
        key: row.object.clone()?,
        retry_count_since_last_stored_entry: progress.attempts_since_entry,
        duration_since_last_stored_entry: since_first(progress, now),
        random_seed: row.seed,
        scope: None,
        limit_key: None,
        idempotency_key: None,
    })
}

/// The payload of that start.
fn start_payload(
    alloc: Global,
    row: &InvocationRow,
    states: &[StateRow],
    now: u64,
) -> Result<Vec<u8>, AllocError>
    ensures { IfOk result (λ payload. payload.items ≡ start_frame_payload row.now states.now now) }
{
    let start = start_record(alloc, row, states, now)?;
    let spelled = encode(alloc, &start);
    drop(start);
    let payload = spelled?;
    Ok(payload)
}

/// The start frame, if the length of its payload fits 32 bits.
pub(crate) fn start_frame(
    alloc: Global,
    row: &InvocationRow,
    states: &[StateRow],
    now: u64,
) -> Result<Bytes, Refusal>
    ensures decided { Decides (payload_tests (start_frame_payload row.now states.now now)) (λ start. start ≡ frame_bytes MessageType.Start (start_frame_payload row.now states.now now)) result }
    ensures unasked { IfErr result IsUnasked }
{
    let payload = start_payload(alloc, row, states, now)?;
    payload_frame(alloc, MessageType::Start, payload.as_slice())
}
