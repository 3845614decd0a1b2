//! The flag of an open invocation to which arrivals come.

ghost use Rattle.std.specs.Prelude.{◌≡◌, ◌∷◌, [], List, IfErr};
ghost use Rattle.sqlite.specs.Held.{state};
ghost use Rattle.sqlite.specs.State.{HasCleanDisk};
ghost use Rattle.journal_model.specs.Notification.{Text};
ghost use Rattle.journal_model.specs.Event.{Event};
ghost use Rattle.store_tables.specs.Looks.{OnlyAsks};
ghost use Rattle.store_refusals.specs.Preparations.{TellsOrRefuses};
ghost use Rattle.store_invocations.specs.Rows.{Decides, IsOpenRow, IsStoreOf};
ghost use Rattle.store_arrivals.specs.Arrivals.{IsArrival, arrival_tests};
ghost use Rattle.store_arrivals.specs.ArrivalRows.{awake_then, row_then};
ghost use Rattle.store_refusals.specs.Causes.{TellsCause};

use crate::arrival::{PreparedArrival, prepare_arrival};
use crate::wake::is_woken_by_new;
use journal_model::Notification;
use protocol_stream::MessageType;
use sqlite::Alter;
use std::slice;
use store_refusals::Refusal;
use store_tables::{InvocationRow, StoreTables};

/// Whether the open invocation is awake once these are recorded too. One that is awake stays so; of one that waits for one of these the
/// arrivals are read that its attempt did not hear.
fn is_awake_with<S: Alter>(
    tables: &mut StoreTables<S>,
    row: &InvocationRow,
    new: &[Notification],
) -> Result<bool, Refusal>
    ensures told { HasCleanDisk (state S.Store tables.new) → (events : List Event) (id : Text) → IsStoreOf events (state S.Store tables.old) → IsOpenRow events id row.now
        → TellsOrRefuses (λ awake. awake ≡ awake_then events id new.now) result }
    ensures looks { OnlyAsks S.Store tables.old tables.new }
    ensures cause { IfErr result (TellsCause (state S.Store tables.old) (state S.Store tables.new)) }
{
    if row.progress.is_awake {
        return Ok(true);
    }
    match &row.progress.suspension {
        Some(suspension) => is_woken_by_new(
            tables,
            &row.id,
            row.version,
            suspension.as_slice(),
            row.progress.heard.unwrap_or(0),
            new,
        ),
        None => Ok(true),
    }
}

/// The row of an open invocation, with the flag that it has once these are recorded too.
pub(crate) fn woken_row<S: Alter>(
    tables: &mut StoreTables<S>,
    mut row: InvocationRow,
    new: &[Notification],
) -> Result<InvocationRow, Refusal>
    ensures told { HasCleanDisk (state S.Store tables.new) → (events : List Event) (id : Text) → IsStoreOf events (state S.Store tables.old) → IsOpenRow events id row
        → TellsOrRefuses (λ woken. woken ≡ row_then events id new.now row) result }
    ensures looks { OnlyAsks S.Store tables.old tables.new }
    ensures cause { IfErr result (TellsCause (state S.Store tables.old) (state S.Store tables.new)) }
{
    match is_awake_with(tables, &row, new) {
        Ok(is_awake) => {
            row.progress.is_awake = is_awake;
            Ok(row)
        }
        Err(why) => {
            drop(row);
            Err(why)
        }
    }
}

/// What an arrival makes ready, of the open invocation that has this row, as a frame of this type: its entry behind the others, how far
/// the invocation is then, and whether it is awake.
pub fn prepare_woken<S: Alter>(
    tables: &mut StoreTables<S>,
    row: InvocationRow,
    ty: MessageType,
    arrival: Notification,
) -> Result<PreparedArrival, Refusal>
    ensures decided { HasCleanDisk (state S.Store tables.new) → (events : List Event) (id : Text) → IsStoreOf events (state S.Store tables.old) → IsOpenRow events id row
        → Decides (arrival_tests row arrival) (IsArrival (row_then events id (arrival ∷ []) row) ty arrival) result }
    ensures looks { OnlyAsks S.Store tables.old tables.new }
    ensures cause { IfErr result (TellsCause (state S.Store tables.old) (state S.Store tables.new)) }
{
    match woken_row(tables, row, slice::from_ref(&arrival)) {
        Ok(row) => prepare_arrival(tables.alloc(), row, ty, arrival),
        Err(why) => {
            drop(arrival);
            Err(why)
        }
    }
}
