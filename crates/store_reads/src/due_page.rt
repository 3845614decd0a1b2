//! The invocations that are due, page by page.

ghost use Rattle.std.specs.Prelude.{◌≡◌, [], take, Some, List, IfErr, OnOk};
ghost use Rattle.sqlite.specs.Held.{state};
ghost use Rattle.sqlite.specs.State.{HasCleanDisk};
ghost use Rattle.journal_model.specs.Notification.{Text};
ghost use Rattle.journal_model.specs.Event.{Event};
ghost use Rattle.store_tables.specs.Looks.{OnlyAsks};
ghost use Rattle.store_live.specs.Attempts.{attempt_of};
ghost use Rattle.store_live_laws.specs.LiveAttempts.{Agrees};
ghost use Rattle.store_refusals.specs.Preparations.{TellsOrRefuses};
ghost use Rattle.store_refusals.specs.Causes.{TellsCause};
ghost use Rattle.store_invocations.specs.Rows.{IsStoreOf};
ghost use Rattle.store_reads.specs.Page.{rows_behind};
ghost use Rattle.store_reads.specs.DuePage.{IsPassed, PagesAreDue, PagesGoOn, due_after, due_among, is_row_due, with_due};

use crate::page::row_above;
use bytes::ByteStr;
use sqlite::Alter;
use std::alloc::AllocError;
use std::mem::replace;
use store_live::LiveAttempts;
use store_refusals::Refusal;
use store_tables::{InvocationRow, StoreTables};

fn is_due(live: &LiveAttempts, row: &InvocationRow) -> bool
    ensures { result ≡ is_row_due live.now.attempts row.now }
{
    row.progress.is_awake && !live.get(&row.id).is_some()
}

fn id_of(row: InvocationRow) -> ByteStr
    ensures { result ≡ row.id }
{
    let InvocationRow {
        id,
        object,
        progress,
        ..
    } = row;
    drop(object);
    drop(progress);
    id
}

/// Puts the id of a row behind the others, if it is due.
fn add_if_due(
    live: &LiveAttempts,
    row: &InvocationRow,
    ids: &mut Vec<ByteStr>,
) -> Result<(), AllocError>
    ensures { OnOk result (ids.new.items ≡ with_due live.now.attempts row.now ids.old.items) }
{
    if is_due(live, row) {
        ids.push(row.id.clone()?)?;
    }
    Ok(())
}

/// Reads the next row. Whether there is one.
fn pass_row<S: Alter>(
    tables: &mut StoreTables<S>,
    live: &LiveAttempts,
    behind: &mut ByteStr,
    ids: &mut Vec<ByteStr>,
) -> Result<bool, Refusal>
    ensures told { HasCleanDisk (state S.Store tables.new) → (events : List Event) → IsStoreOf events (state S.Store tables.old)
        → TellsOrRefuses (λ more. IsPassed live.now.attempts (rows_behind events (Some behind.old)) more behind.new ids.old.items ids.new.items) result }
    ensures looks { OnlyAsks S.Store tables.old tables.new }
    ensures cause { IfErr result (TellsCause (state S.Store tables.old) (state S.Store tables.new)) }
{
    let Some(row) = row_above(tables, behind)? else {
        return Ok(false);
    };
    let added = add_if_due(live, &row, ids);
    drop(replace(behind, id_of(row)));
    added?;
    Ok(true)
}

/// Puts the ids of a page behind none. No database has so many rows that the loop comes to its end.
fn add_due<S: Alter>(
    tables: &mut StoreTables<S>,
    live: &LiveAttempts,
    after: &ByteStr,
    most: usize,
    ids: &mut Vec<ByteStr>,
) -> Result<(), Refusal>
    ensures told { HasCleanDisk (state S.Store tables.new) → (events : List Event) → IsStoreOf events (state S.Store tables.old) → ids.old.items ≡ []
        → TellsOrRefuses (λ _. ids.new.items ≡ take most (due_among live.now.attempts (rows_behind events (Some after.now)))) result }
    ensures looks { OnlyAsks S.Store tables.old tables.new }
    ensures cause { IfErr result (TellsCause (state S.Store tables.old) (state S.Store tables.new)) }
{
    let mut behind = after.clone()?;
    for _ in 0..u64::MAX {
        if ids.len() >= most {
            return Ok(());
        }
        let goes_on = pass_row(tables, live, &mut behind, ids)?;
        if !goes_on {
            return Ok(());
        }
    }
    Err(Refusal::OutOfMemory)
}

/// The first so many of the ids that are due and above one, by id, where these attempts are live. The row of each invocation above it
/// is read until so many are found, and none is kept.
pub fn due_after<S: Alter>(
    tables: &mut StoreTables<S>,
    live: &LiveAttempts,
    after: &ByteStr,
    most: usize,
) -> Result<Vec<ByteStr>, Refusal>
    ensures told { HasCleanDisk (state S.Store tables.new) → (events : List Event) → IsStoreOf events (state S.Store tables.old)
        → ((id : Text) → Agrees events id (attempt_of live.now.attempts id)) → TellsOrRefuses (λ ids. ids.items ≡ due_after events after.now most) result }
    ensures looks { OnlyAsks S.Store tables.old tables.new }
    ensures cause { IfErr result (TellsCause (state S.Store tables.old) (state S.Store tables.new)) }
{
    let mut ids = Vec::new(tables.alloc());
    add_due(tables, live, after, most, &mut ids)?;
    Ok(ids)
}

/// Behind the last id of a page the next one begins, and all pages together are what is due. The function does nothing: its contract
/// is the law.
pub fn pages_go_on()
    ensures go_on { PagesGoOn }
    ensures due { PagesAreDue }
{}
