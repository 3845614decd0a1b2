//! When the next sleep ends.

ghost use Rattle.std.specs.Prelude.{◌≡◌, List, option_map, IfErr};
ghost use Rattle.sqlite.specs.Held.{state};
ghost use Rattle.sqlite.specs.State.{HasCleanDisk};
ghost use Rattle.journal_model.specs.Event.{Event};
ghost use Rattle.due_laws.specs.NextMoment.{IsNextMoment};
ghost use Rattle.store_tables.specs.Looks.{OnlyAsks};
ghost use Rattle.store_tables.specs.declared.row.SleepRow.{SleepRow};
ghost use Rattle.store_refusals.specs.Preparations.{TellsOrRefuses};
ghost use Rattle.store_invocations.specs.Rows.{IsStoreOf};
ghost use Rattle.store_refusals.specs.Causes.{TellsCause};

use sqlite::Alter;
use std::alloc::Global;
use store_refusals::Refusal;
use store_tables::{SleepRow, StoreTables, first_sleep};

fn moment_of(found: Option<SleepRow>) -> Option<u64>
    ensures { result ≡ option_map (λ (sleep : SleepRow). sleep.moment) found }
{
    match found {
        Some(
            SleepRow {
                moment,
                invocation,
                ..
            },
        ) => {
            drop(invocation);
            Some(moment)
        }
        None => None,
    }
}

/// The first moment, in milliseconds, that ends a sleep of an open invocation, if there is one. One row is read.
pub fn next_moment<S: Alter>(tables: &mut StoreTables<S>) -> Result<Option<u64>, Refusal>
    ensures told { HasCleanDisk (state S.Store tables.new) → (events : List Event) → IsStoreOf events (state S.Store tables.old) → TellsOrRefuses (IsNextMoment events) result }
    ensures looks { OnlyAsks S.Store tables.old tables.new }
    ensures cause { IfErr result (TellsCause (state S.Store tables.old) (state S.Store tables.new)) }
{
    let found = first_sleep(tables, 0)?;
    Ok(moment_of(found))
}
