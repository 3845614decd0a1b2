//! The next attempt of an invocation whose row was read.

ghost use Rattle.std.specs.Prelude.{◌≡◌, List, ℕ, IfErr};
ghost use Rattle.sqlite.specs.Held.{state};
ghost use Rattle.sqlite.specs.State.{HasCleanDisk};
ghost use Rattle.journal_model.specs.Spelling.{frame_bytes};
ghost use Rattle.journal_model.specs.Event.{Event};
ghost use Rattle.journal_model.specs.Cause.{own_tests};
ghost use Rattle.store_tables.specs.Looks.{OnlyAsks};
ghost use Rattle.store_refusals.specs.Preparations.{TellsOrRefuses};
ghost use Rattle.store_invocations.specs.Rows.{Decides, IsOpenRow, IsStoreOf, payload_tests};
ghost use Rattle.store_invocations.specs.BegunAttempts.{IsBegun, shown_states};
ghost use Rattle.protocol_types.specs.declared.message_type.MessageType.{MessageType};
ghost use Rattle.store_invocations.specs.Start.{start_frame_payload};
ghost use Rattle.store_refusals.specs.Causes.{TellsCause};

use crate::attempt::PreparedAttempt;
use crate::begun::begun_row;
use crate::start::start_frame;
use crate::states::object_states;
use bytes::{ByteStr, Bytes};
use sqlite::Alter;
use std::alloc::Global;
use store_refusals::{Cause, Refusal};
use store_tables::{InvocationRow, StateRow, StoreTables};

/// The state that an attempt is shown: all of its object's, or none.
fn shown_states<S: Alter>(
    tables: &mut StoreTables<S>,
    row: &InvocationRow,
) -> Result<Vec<StateRow>, Refusal>
    ensures told { HasCleanDisk (state S.Store tables.new) → (events : List Event) → IsStoreOf events (state S.Store tables.old) → TellsOrRefuses (λ states. states.items ≡ shown_states events row.now) result }
    ensures looks { OnlyAsks S.Store tables.old tables.new }
    ensures cause { IfErr result (TellsCause (state S.Store tables.old) (state S.Store tables.new)) }
{
    if !row.is_whole {
        return Ok(Vec::new(tables.alloc()));
    }
    object_states(tables, &row.object)
}

/// The start frame, with that state.
fn begun_start<S: Alter>(
    tables: &mut StoreTables<S>,
    row: &InvocationRow,
    now: u64,
) -> Result<Bytes, Refusal>
    ensures decided { HasCleanDisk (state S.Store tables.new) → (events : List Event) → IsStoreOf events (state S.Store tables.old) → Decides (payload_tests (start_frame_payload row.now (shown_states events row.now) now)) (λ start. start ≡ frame_bytes MessageType.Start (start_frame_payload row.now (shown_states events row.now) now)) result }
    ensures looks { OnlyAsks S.Store tables.old tables.new }
    ensures cause { IfErr result (TellsCause (state S.Store tables.old) (state S.Store tables.new)) }
{
    let states = shown_states(tables, row)?;
    let start = start_frame(tables.alloc(), row, states.as_slice(), now);
    drop(states);
    start
}

/// The next attempt of an open invocation.
pub(crate) fn prepare_next<S: Alter>(
    tables: &mut StoreTables<S>,
    row: InvocationRow,
    now: u64,
) -> Result<PreparedAttempt, Refusal>
    ensures decided { HasCleanDisk (state S.Store tables.new) → (events : List Event) → (id : List ℕ) → IsStoreOf events (state S.Store tables.old) → IsOpenRow events id row → Decides (own_tests events (Event.Begin id now)) (IsBegun events id now) result }
    ensures looks { OnlyAsks S.Store tables.old tables.new }
    ensures cause { IfErr result (TellsCause (state S.Store tables.old) (state S.Store tables.new)) }
{
    let Some(number) = row.progress.attempts.checked_add(1) else {
        drop(row);
        return Err(Refusal::Cause(Cause::NumbersUsedUp));
    };
    let version = row.version;
    let known = row.progress.entries;
    let arrivals = row.progress.arrivals;
    let read = begun_start(tables, &row, now);
    let made = begun_row(tables.alloc(), row, now);
    let start = read?;
    let begun = made?;
    let (writes, row) = begun;
    Ok(PreparedAttempt {
        writes,
        number,
        version,
        start,
        known,
        arrivals,
        row,
    })
}
