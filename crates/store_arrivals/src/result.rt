//! What the result of a request makes ready.

ghost use Rattle.std.specs.Prelude.{◌≡◌, List, IfErr};
ghost use Rattle.sqlite.specs.Held.{state};
ghost use Rattle.sqlite.specs.State.{HasCleanDisk};
ghost use Rattle.journal_model.specs.declared.notification.NotificationId.TheVariants.{CompletionId};
ghost use Rattle.journal_model.specs.Event.{Event};
ghost use Rattle.journal_model.specs.Journal.{entries_of};
ghost use Rattle.journal_model.specs.Attempt.{notification_type};
ghost use Rattle.journal_model.specs.Cause.{own_tests};
ghost use Rattle.store_tables.specs.Looks.{OnlyAsks};
ghost use Rattle.store_refusals.specs.Preparations.{Prepares};
ghost use Rattle.store_invocations.specs.Rows.{Decides, IsOpenRow, IsStoreOf};
ghost use Rattle.store_arrivals.specs.Arrivals.{IsMadeReady};
ghost use Rattle.store_arrivals.specs.AskedCompletions.{completion_tests};
ghost use Rattle.store_refusals.specs.Causes.{TellsCause};

use crate::arrival::PreparedArrival;
use crate::asking::open_request_of;
use crate::woken::prepare_woken;
use bytes::ByteStr;
use journal_model::{Notification, NotificationId, NotificationResult};
use protocol_stream::MessageType;
use sqlite::Alter;
use std::alloc::Global;
use store_invocations::open_row;
use store_refusals::{Cause, Refusal};
use store_tables::{InvocationRow, StoreTables};

/// The type of the notification by which an open completion is given this.
fn type_of_result<S: Alter>(
    tables: &mut StoreTables<S>,
    id: &ByteStr,
    completion: u32,
    brought: &NotificationResult,
) -> Result<MessageType, Refusal>
    ensures decided { HasCleanDisk (state S.Store tables.new) → (events : List Event) → IsStoreOf events (state S.Store tables.old)
        → Decides (completion_tests events id.now completion brought.now) (λ ty. ty ≡ notification_type (entries_of events id.now) (CompletionId completion)) result }
    ensures looks { OnlyAsks S.Store tables.old tables.new }
    ensures cause { IfErr result (TellsCause (state S.Store tables.old) (state S.Store tables.new)) }
{
    let open = open_request_of(tables, id, completion)?;
    match open {
        Some(asked) => asked.type_given(brought),
        None => Err(Refusal::Cause(Cause::CompletionNotOpen)),
    }
}

/// What a result makes ready, of the open invocation that has this row.
fn prepare_for<S: Alter>(
    tables: &mut StoreTables<S>,
    row: InvocationRow,
    id: &ByteStr,
    completion: u32,
    brought: NotificationResult,
) -> Result<PreparedArrival, Refusal>
    ensures decided { HasCleanDisk (state S.Store tables.new) → (events : List Event) → IsStoreOf events (state S.Store tables.old) → IsOpenRow events id.now row
        → Decides (own_tests events (Event.Result id.now completion brought)) (IsMadeReady events (Event.Result id.now completion brought) id.now) result }
    ensures looks { OnlyAsks S.Store tables.old tables.new }
    ensures cause { IfErr result (TellsCause (state S.Store tables.old) (state S.Store tables.new)) }
{
    match type_of_result(tables, id, completion, &brought) {
        Ok(ty) => prepare_woken(
            tables,
            row,
            ty,
            Notification {
                id: NotificationId::CompletionId(completion),
                result: brought,
            },
        ),
        Err(why) => {
            drop(row);
            drop(brought);
            Err(why)
        }
    }
}

/// What a result of a recorded request makes ready, or why it is refused.
pub fn prepare_result<S: Alter>(
    tables: &mut StoreTables<S>,
    id: &ByteStr,
    completion: u32,
    brought: NotificationResult,
) -> Result<PreparedArrival, Refusal>
    ensures prepared { HasCleanDisk (state S.Store tables.new) → (events : List Event) → IsStoreOf events (state S.Store tables.old)
        → Prepares events (Event.Result id.now completion brought) (IsMadeReady events (Event.Result id.now completion brought) id.now) result }
    ensures looks { OnlyAsks S.Store tables.old tables.new }
    ensures cause { IfErr result (TellsCause (state S.Store tables.old) (state S.Store tables.new)) }
{
    match open_row(tables, id) {
        Ok(row) => prepare_for(tables, row, id, completion, brought),
        Err(why) => {
            drop(brought);
            Err(why)
        }
    }
}
