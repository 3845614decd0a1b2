//! What the outcome of a run makes ready.

ghost use Rattle.std.specs.Prelude.{◌≡◌, List, IfErr};
ghost use Rattle.sqlite.specs.Held.{state};
ghost use Rattle.sqlite.specs.State.{HasCleanDisk};
ghost use Rattle.journal_model.specs.Event.{Event};
ghost use Rattle.journal_model.specs.Journal.{entries_of, open_request};
ghost use Rattle.journal_model.specs.Cause.{is_run};
ghost use Rattle.store_tables.specs.Looks.{OnlyAsks};
ghost use Rattle.store_refusals.specs.Preparations.{TellsOrRefuses};
ghost use Rattle.store_invocations.specs.Rows.{IsRowOf, IsStoreOf};
ghost use Rattle.store_arrivals.specs.Arrivals.{DecidesOutcome};
ghost use Rattle.store_refusals.specs.Causes.{TellsCause};

use crate::arrival::{PreparedArrival, prepare_arrival};
use crate::asking::open_request_of;
use bytes::ByteStr;
use journal_model::{Notification, NotificationId, NotificationResult};
use protocol_stream::MessageType;
use sqlite::Alter;
use std::alloc::Global;
use store_refusals::{Cause, Refusal};
use store_tables::{InvocationRow, StoreTables};

/// Whether a completion is that of a run that waits for its outcome.
fn is_run_open<S: Alter>(
    tables: &mut StoreTables<S>,
    id: &ByteStr,
    completion: u32,
) -> Result<bool, Refusal>
    ensures told { HasCleanDisk (state S.Store tables.new) → (events : List Event) → IsStoreOf events (state S.Store tables.old) → TellsOrRefuses (λ is_open. is_open ≡ is_run (open_request (entries_of events id.now) completion)) result }
    ensures looks { OnlyAsks S.Store tables.old tables.new }
    ensures cause { IfErr result (TellsCause (state S.Store tables.old) (state S.Store tables.new)) }
{
    let open = open_request_of(tables, id, completion)?;
    match open {
        Some(asked) => Ok(asked.is_run()),
        None => Ok(false),
    }
}

/// What the outcome of a run makes ready, of the open invocation that has this row, or why it is refused. Whether the attempt that
/// proposes it is told only that it came is the caller's to know.
pub fn prepare_outcome<S: Alter>(
    tables: &mut StoreTables<S>,
    row: InvocationRow,
    id: &ByteStr,
    completion: u32,
    brought: NotificationResult,
) -> Result<PreparedArrival, Refusal>
    ensures decided { HasCleanDisk (state S.Store tables.new) → (events : List Event) → IsStoreOf events (state S.Store tables.old) → IsRowOf events id.now row → DecidesOutcome events id.now completion brought result }
    ensures looks { OnlyAsks S.Store tables.old tables.new }
    ensures cause { IfErr result (TellsCause (state S.Store tables.old) (state S.Store tables.new)) }
{
    match is_run_open(tables, id, completion) {
        Ok(true) => prepare_arrival(
            tables.alloc(),
            row,
            MessageType::RunCompletionNotification,
            Notification {
                id: NotificationId::CompletionId(completion),
                result: brought,
            },
        ),
        Ok(false) => {
            drop(row);
            drop(brought);
            Err(Refusal::Cause(Cause::RunNotOpen))
        }
        Err(why) => {
            drop(row);
            drop(brought);
            Err(why)
        }
    }
}
