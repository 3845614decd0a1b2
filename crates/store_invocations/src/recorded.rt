//! The journal of an invocation, by place.

ghost use Rattle.std.specs.Prelude.{◌≡◌, List, filter, map, IfOk, IfErr};
ghost use Rattle.sqlite.specs.Held.{state};
ghost use Rattle.sqlite.specs.State.{HasCleanDisk};
ghost use Rattle.journal_model.specs.Event.{Event};
ghost use Rattle.protocol_types.specs.MessageType.{is_command};
ghost use Rattle.store_tables.specs.Looks.{OnlyAsks};
ghost use Rattle.store_model.specs.KeptRecords.{journal_rows};
ghost use Rattle.store_invocations.specs.Rows.{Decides, IsStoreOf, known_tests};
ghost use Rattle.store_invocations.specs.JournalContent.{entries_told, entry_read, is_entry, kind_by};
ghost use Rattle.store_refusals.specs.Causes.{TellsCause};

use crate::row::known_row;
use bytes::{ByteStr, Bytes};
use protocol_types::MessageType;
use sqlite::Alter;
use std::alloc::{AllocError, Global};
use store_refusals::Refusal;
use store_tables::{EntryRow, StoreTables, journal};

/// What is recorded at a place.
#[derive(Clone, Copy, Debug)]
pub enum EntryKind {
    /// A request, as an attempt made it.
    Request,
    /// What came of a request, or a signal.
    Arrival,
}

/// A request or an arrival at its place, as its frame has it.
#[derive(Debug, Drop)]
pub struct RecordedEntry {
    /// From 1 on: the input has place 0.
    pub place: u32,
    pub kind: EntryKind,
    /// The type of the frame. That of an arrival is the type by which its request is completed.
    pub ty: MessageType,
    pub payload: Bytes,
}

fn kind_of(ty: MessageType) -> EntryKind
    ensures { result ≡ kind_by (is_command ty) }
{
    if ty.is_command() {
        EntryKind::Request
    } else {
        EntryKind::Arrival
    }
}

fn entry_of(row: &EntryRow) -> Result<RecordedEntry, AllocError>
    ensures { IfOk result (λ entry. entry ≡ entry_read row.now) }
{
    Ok(RecordedEntry {
        place: row.place,
        kind: kind_of(row.kind),
        ty: row.kind,
        payload: row.payload.clone()?,
    })
}

fn entries_among(alloc: Global, rows: &[EntryRow]) -> Result<Vec<RecordedEntry>, AllocError>
    ensures { IfOk result (λ entries. entries.items ≡ map entry_read (filter is_entry rows.now)) }
{
    let mut entries = Vec::new(alloc);
    for row in rows {
        if row.place != 0 {
            entries.push(entry_of(row)?)?;
        }
    }
    Ok(entries)
}

/// The rows of a journal, the input's first: so many as the invocation's row tells.
fn rows_of<S: Alter>(tables: &mut StoreTables<S>, id: &ByteStr) -> Result<Vec<EntryRow>, Refusal>
    ensures told { HasCleanDisk (state S.Store tables.new) → (events : List Event) → IsStoreOf events (state S.Store tables.old) → Decides (known_tests events id.now) (λ rows. rows.items ≡ journal_rows events id.now) result }
    ensures looks { OnlyAsks S.Store tables.old tables.new }
    ensures cause { IfErr result (TellsCause (state S.Store tables.old) (state S.Store tables.new)) }
{
    let row = known_row(tables, id)?;
    let count = row.progress.entries;
    drop(row);
    let rows = journal(tables, id)?;
    if rows.len() != count as usize {
        drop(rows);
        return Err(Refusal::ForeignRow);
    }
    Ok(rows)
}

/// The recorded requests and arrivals, by place. Where rows are missing that the invocation's row counts, it is foreign.
pub fn entries<S: Alter>(
    tables: &mut StoreTables<S>,
    id: &ByteStr,
) -> Result<Vec<RecordedEntry>, Refusal>
    ensures told { HasCleanDisk (state S.Store tables.new) → (events : List Event) → IsStoreOf events (state S.Store tables.old) → Decides (known_tests events id.now) (λ entries. entries.items ≡ entries_told events id.now) result }
    ensures looks { OnlyAsks S.Store tables.old tables.new }
    ensures cause { IfErr result (TellsCause (state S.Store tables.old) (state S.Store tables.new)) }
{
    let rows = rows_of(tables, id)?;
    let among = entries_among(tables.alloc(), rows.as_slice());
    drop(rows);
    let entries = among?;
    Ok(entries)
}
