//! What a tick makes ready.

ghost use Rattle.std.specs.Prelude.{◌≡◌, ℕ, List, length, map, true, IfOk, OnOk, IsTrue, IfErr};
ghost use Rattle.sqlite.specs.Held.{state};
ghost use Rattle.sqlite.specs.State.{HasCleanDisk};
ghost use Rattle.journal_model.specs.Event.{Event};
ghost use Rattle.journal_model.specs.Journal.{is_open};
ghost use Rattle.store_tables.specs.Looks.{OnlyAsks};
ghost use Rattle.store_model.specs.Sleeps.{due_until};
ghost use Rattle.store_refusals.specs.Preparations.{Prepares};
ghost use Rattle.store_arrivals.specs.SleepGroups.{as_group};
ghost use Rattle.store_invocations.specs.Rows.{Decides, IsOpenRow, IsStoreOf};
ghost use Rattle.store_arrivals.specs.ArrivalRows.{ends_of, row_then};
ghost use Rattle.store_arrivals.specs.PreparedTicks.{AreEndsOf, AreGroupsEnded, AreOpen, IsEndedUntil, IsGroupEnded, IsTickReady, closed_until, group_tests, room_tests, tests_of};
ghost use Rattle.store_refusals.specs.Causes.{TellsCause};

use crate::ended::end_sleeps;
use crate::groups::{SleepGroup, groups_of};
use crate::woken::woken_row;
use journal_model::{NEVER, Notification, NotificationId, NotificationResult};
use sqlite::Alter;
use std::alloc::{AllocError, Global};
use std::collections::VecDeque;
use store_invocations::open_row;
use store_refusals::Refusal;
use store_tables::{InvocationRow, StoreTables, Write, sleeps_until};

/// What a tick writes.
#[derive(Debug, Drop)]
pub struct PreparedTick {
    /// All in one transaction. Nothing where no sleep is ended.
    pub writes: Vec<Write>,
    /// How many sleeps are ended, over all.
    pub count: u64,
}

/// The last moment by which a tick at this one ends sleeps: a later one is never due.
fn due_until(now: u64) -> u64
    ensures { result ≡ due_until now }
{
    now.min(NEVER - 1)
}

/// The ends of these sleeps, as they arrive.
fn ends_of(alloc: Global, completions: &[u32]) -> Result<Vec<Notification>, AllocError>
    ensures { IfOk result (λ ends. ends.items ≡ ends_of completions.now) }
{
    completions
        .iter()
        .map(|completion| Notification {
            id: NotificationId::CompletionId(*completion),
            result: NotificationResult::Void,
        })
        .collect(alloc)
}

/// Ends the sleeps of the open invocation that has this row.
fn end_open<S: Alter>(
    tables: &mut StoreTables<S>,
    row: InvocationRow,
    completions: &[u32],
    writes: &mut Vec<Write>,
) -> Result<(), Refusal>
    ensures decided { HasCleanDisk (state S.Store tables.new) → (events : List Event) → (id : List ℕ) → IsStoreOf events (state S.Store tables.old) → IsOpenRow events id row
        → Decides (room_tests row.progress.entries (length completions.now)) (λ _. AreEndsOf (row_then events id (ends_of completions.now) row) completions.now writes.old.items writes.new.items) result }
    ensures looks { OnlyAsks S.Store tables.old tables.new }
    ensures cause { IfErr result (TellsCause (state S.Store tables.old) (state S.Store tables.new)) }
{
    let Ok(ends) = ends_of(tables.alloc(), completions) else {
        drop(row);
        return Err(Refusal::OutOfMemory);
    };
    let woken = woken_row(tables, row, ends.as_slice());
    drop(ends);
    match woken {
        Ok(row) => end_sleeps(tables.alloc(), row, completions, writes),
        Err(why) => Err(why),
    }
}

/// Ends the sleeps of one invocation.
fn end_group<S: Alter>(
    tables: &mut StoreTables<S>,
    group: SleepGroup,
    writes: &mut Vec<Write>,
) -> Result<(), Refusal>
    ensures decided { HasCleanDisk (state S.Store tables.new) → (events : List Event) → IsStoreOf events (state S.Store tables.old) → is_open events group.invocation ≡ true
        → Decides (group_tests events (as_group group)) (λ _. IsGroupEnded events (as_group group) writes.old.items writes.new.items) result }
    ensures looks { OnlyAsks S.Store tables.old tables.new }
    ensures cause { IfErr result (TellsCause (state S.Store tables.old) (state S.Store tables.new)) }
{
    let SleepGroup {
        invocation,
        completions,
    } = group;
    let completions = completions.into_vec();
    match open_row(tables, &invocation) {
        Ok(row) => {
            drop(invocation);
            let ended = end_open(tables, row, completions.as_slice(), writes);
            drop(completions);
            ended
        }
        Err(why) => {
            drop(invocation);
            drop(completions);
            Err(why)
        }
    }
}

/// Ends the sleeps of one invocation after another.
fn end_groups<S: Alter>(
    tables: &mut StoreTables<S>,
    mut groups: VecDeque<SleepGroup>,
    writes: &mut Vec<Write>,
) -> Result<(), Refusal>
    ensures decided { HasCleanDisk (state S.Store tables.new) → (events : List Event) → IsStoreOf events (state S.Store tables.old) → AreOpen events (map as_group groups.items)
        → Decides (tests_of events (map as_group groups.items)) (λ _. AreGroupsEnded events (map as_group groups.items) writes.old.items writes.new.items) result }
    ensures looks { OnlyAsks S.Store tables.old tables.new }
    ensures cause { IfErr result (TellsCause (state S.Store tables.old) (state S.Store tables.new)) }
{
    while let Some(group) = groups.pop_front() {
        end_group(tables, group, writes)?;
    }
    Ok(())
}

/// Closes the sleeps that are due, where there are any.
fn close_due(until: u64, is_any: bool, writes: &mut Vec<Write>) -> Result<(), AllocError>
    ensures { OnOk result (writes.new.items ≡ closed_until is_any until writes.old.items) }
{
    if is_any {
        writes.push(Write::CloseSleepsUntil { moment: until })?;
    }
    Ok(())
}

/// Ends the sleeps that are due, and closes them where there are any.
fn end_due<S: Alter>(
    tables: &mut StoreTables<S>,
    until: u64,
    count: u64,
    groups: VecDeque<SleepGroup>,
) -> Result<PreparedTick, Refusal>
    ensures decided { HasCleanDisk (state S.Store tables.new) → (events : List Event) → IsStoreOf events (state S.Store tables.old) → AreOpen events (map as_group groups.items)
        → Decides (tests_of events (map as_group groups.items)) (IsEndedUntil events until count (map as_group groups.items)) result }
    ensures looks { OnlyAsks S.Store tables.old tables.new }
    ensures cause { IfErr result (TellsCause (state S.Store tables.old) (state S.Store tables.new)) }
{
    let mut writes = Vec::new(tables.alloc());
    let is_any = !groups.is_empty();
    end_groups(tables, groups, &mut writes)?;
    close_due(until, is_any, &mut writes)?;
    Ok(PreparedTick { writes, count })
}

/// What a tick at this moment makes ready, in milliseconds, or why it is refused: the ends of all sleeps of open invocations that are
/// due.
pub fn prepare_tick<S: Alter>(
    tables: &mut StoreTables<S>,
    now: u64,
) -> Result<PreparedTick, Refusal>
    ensures prepared { HasCleanDisk (state S.Store tables.new) → (events : List Event) → IsStoreOf events (state S.Store tables.old)
        → Prepares events (Event.Tick now) (IsTickReady events now) result }
    ensures asked { HasCleanDisk (state S.Store tables.new) → OnOk result (IsTrue (state S.Store tables.old).is_open) }
    ensures looks { OnlyAsks S.Store tables.old tables.new }
    ensures cause { IfErr result (TellsCause (state S.Store tables.old) (state S.Store tables.new)) }
{
    let until = due_until(now);
    let rows = sleeps_until(tables, until)?;
    let count = rows.len() as u64;
    let groups = groups_of(tables.alloc(), rows)?;
    end_due(tables, until, count, groups)
}
