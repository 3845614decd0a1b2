//! The invocations of which an attempt may go on.

ghost use Rattle.std.specs.Prelude.{◌≡◌, List, ℕ, map, filter, IfOk, IfErr};
ghost use Rattle.sqlite.specs.Held.{state};
ghost use Rattle.sqlite.specs.State.{HasCleanDisk};
ghost use Rattle.journal_model.specs.Event.{Event};
ghost use Rattle.journal_model.specs.Attempt.{due, is_none, live_attempt};
ghost use Rattle.store_tables.specs.Looks.{OnlyAsks};
ghost use Rattle.store_tables.specs.declared.row.IdRow.{IdRow};
ghost use Rattle.store_refusals.specs.Preparations.{TellsOrRefuses};
ghost use Rattle.store_invocations.specs.Rows.{IsStoreOf};
ghost use Rattle.store_refusals.specs.Causes.{TellsCause};

use bytes::ByteStr;
use sqlite::Alter;
use std::alloc::{AllocError, Global};
use store_refusals::Refusal;
use store_tables::{IdRow, StoreTables, awake_id_rows};

fn ids_of(alloc: Global, rows: Vec<IdRow>) -> Result<Vec<ByteStr>, AllocError>
    ensures { IfOk result (λ ids. ids.items ≡ map (λ (row : IdRow). row.id) rows.items) }
{
    rows.into_iter().map(|IdRow { id }| id).collect(alloc)
}

/// The ids of the invocations of which an attempt may go on, by id: without those of which one is live they are due. Of each its id alone
/// is read, and of any other nothing.
pub fn awake_ids<S: Alter>(tables: &mut StoreTables<S>) -> Result<Vec<ByteStr>, Refusal>
    ensures told { HasCleanDisk (state S.Store tables.new) → (events : List Event) → IsStoreOf events (state S.Store tables.old)
        → TellsOrRefuses (λ ids. due events ≡ filter (λ id. is_none (live_attempt events id)) ids.items) result }
    ensures looks { OnlyAsks S.Store tables.old tables.new }
    ensures cause { IfErr result (TellsCause (state S.Store tables.old) (state S.Store tables.new)) }
{
    let rows = awake_id_rows(tables)?;
    let ids = ids_of(tables.alloc(), rows)?;
    Ok(ids)
}
