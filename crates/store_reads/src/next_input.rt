//! The row of the next frame.

ghost use Rattle.std.specs.Prelude.{◌≡◌, ◌<◌, ◌^◌, ◌-◌, List, option_map, slice_get, IfErr};
ghost use Rattle.sqlite.specs.Held.{state};
ghost use Rattle.sqlite.specs.State.{HasCleanDisk};
ghost use Rattle.journal_model.specs.Event.{Event};
ghost use Rattle.store_tables.specs.Looks.{OnlyAsks};
ghost use Rattle.store_model.specs.KeptRecords.{journal_rows};
ghost use Rattle.store_model.specs.Lookups.{arrival_rows};
ghost use Rattle.store_live.specs.Input.{next_ordinal, next_row};
ghost use Rattle.store_live_laws.specs.Memory.{frame_read, row_asked};
ghost use Rattle.store_refusals.specs.Preparations.{TellsOrRefuses};
ghost use Rattle.store_invocations.specs.Rows.{IsStoreOf};
ghost use Rattle.store_reads.specs.RowFrames.{IsCounted};
ghost use Rattle.store_refusals.specs.Causes.{TellsCause};

use crate::frame::{acknowledged, frame_of};
use bytes::ByteStr;
use sqlite::Alter;
use store_live::{AttemptInput, FrameRead, NextRow};
use store_refusals::Refusal;
use store_tables::{EntryRow, StoreTables, arrival_at, entry_at};

/// The row at this place, if there is one.
fn known_row<S: Alter>(
    tables: &mut StoreTables<S>,
    id: &ByteStr,
    place: u32,
) -> Result<Option<EntryRow>, Refusal>
    ensures told { HasCleanDisk (state S.Store tables.new) → (events : List Event) → IsStoreOf events (state S.Store tables.old) → TellsOrRefuses (λ row. row ≡ slice_get (journal_rows events id.now) place) result }
    ensures looks { OnlyAsks S.Store tables.old tables.new }
    ensures cause { IfErr result (TellsCause (state S.Store tables.old) (state S.Store tables.new)) }
{
    let row = entry_at(tables, id, place)?;
    Ok(row)
}

/// The row of the arrival with this ordinal, from 1, if it has come.
fn later_row<S: Alter>(
    tables: &mut StoreTables<S>,
    id: &ByteStr,
    ordinal: u32,
) -> Result<Option<EntryRow>, Refusal>
    ensures told { HasCleanDisk (state S.Store tables.new) → (events : List Event) → IsStoreOf events (state S.Store tables.old) → 0 < ordinal → TellsOrRefuses (λ row. row ≡ slice_get (arrival_rows events id.now) (ordinal - 1)) result }
    ensures looks { OnlyAsks S.Store tables.old tables.new }
    ensures cause { IfErr result (TellsCause (state S.Store tables.old) (state S.Store tables.new)) }
{
    let row = arrival_at(tables, id, ordinal)?;
    Ok(row)
}

/// The row that is asked for, if it is there.
fn row_of_next<S: Alter>(
    tables: &mut StoreTables<S>,
    id: &ByteStr,
    next: NextRow,
) -> Result<Option<EntryRow>, Refusal>
    ensures told { HasCleanDisk (state S.Store tables.new) → (events : List Event) → IsStoreOf events (state S.Store tables.old) → IsCounted next → TellsOrRefuses (λ row. row ≡ row_asked events id.now next) result }
    ensures looks { OnlyAsks S.Store tables.old tables.new }
    ensures cause { IfErr result (TellsCause (state S.Store tables.old) (state S.Store tables.new)) }
{
    match next {
        NextRow::Entry(place) => known_row(tables, id, place),
        NextRow::Arrival(ordinal) => later_row(tables, id, ordinal),
    }
}

/// The next frame of an attempt's input, of which all that was read was handed out; `None` where all that is recorded was.
pub fn next_frame<S: Alter>(
    tables: &mut StoreTables<S>,
    id: &ByteStr,
    input: &AttemptInput,
) -> Result<Option<FrameRead>, Refusal>
    ensures told { HasCleanDisk (state S.Store tables.new) → (events : List Event) → IsStoreOf events (state S.Store tables.old) → next_ordinal input.now < 2 ^ 32
        → TellsOrRefuses (λ frame. frame ≡ option_map (frame_read input.now.unread (next_row input.now)) (row_asked events id.now (next_row input.now))) result }
    ensures looks { OnlyAsks S.Store tables.old tables.new }
    ensures cause { IfErr result (TellsCause (state S.Store tables.old) (state S.Store tables.new)) }
{
    let next = input.next_row();
    let found = row_of_next(tables, id, next)?;
    let Some(row) = found else {
        return Ok(None);
    };
    let told = acknowledged(input, next, &row);
    let made = frame_of(tables.alloc(), &row, told);
    drop(row);
    let frame = made?;
    Ok(Some(frame))
}
