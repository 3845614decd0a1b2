//! How far an invocation is.

ghost use Rattle.std.specs.Prelude.{◌≡◌, List, IfErr};
ghost use Rattle.sqlite.specs.Held.{state};
ghost use Rattle.sqlite.specs.State.{HasCleanDisk};
ghost use Rattle.journal_model.specs.Event.{Event};
ghost use Rattle.journal_model.specs.Journal.{is_open};
ghost use Rattle.store_tables.specs.Looks.{OnlyAsks};
ghost use Rattle.store_model.specs.Progress.{last_error_of};
ghost use Rattle.store_invocations.specs.Rows.{Decides, IsStoreOf, known_tests};
ghost use Rattle.store_refusals.specs.Causes.{TellsCause};

use crate::row::known_row;
use bytes::ByteStr;
use sqlite::Alter;
use std::alloc::Global;
use store_refusals::Refusal;
use store_tables::{InvocationRow, LastError, StoreTables};

fn error_of(row: InvocationRow) -> Option<LastError>
    ensures { result ≡ row.progress.last_error }
{
    let progress = row.progress;
    progress.last_error
}

/// Whether an invocation is not closed.
pub fn is_open<S: Alter>(tables: &mut StoreTables<S>, id: &ByteStr) -> Result<bool, Refusal>
    ensures told { HasCleanDisk (state S.Store tables.new) → (events : List Event) → IsStoreOf events (state S.Store tables.old) → Decides (known_tests events id.now) (λ answer. answer ≡ is_open events id.now) result }
    ensures looks { OnlyAsks S.Store tables.old tables.new }
    ensures cause { IfErr result (TellsCause (state S.Store tables.old) (state S.Store tables.new)) }
{
    let row = known_row(tables, id)?;
    let open = row.progress.closing.is_none();
    drop(row);
    Ok(open)
}

/// The last error that an attempt told: its code, what was to be done, its delay and its message.
pub fn failure<S: Alter>(
    tables: &mut StoreTables<S>,
    id: &ByteStr,
) -> Result<Option<LastError>, Refusal>
    ensures told { HasCleanDisk (state S.Store tables.new) → (events : List Event) → IsStoreOf events (state S.Store tables.old) → Decides (known_tests events id.now) (λ error. error ≡ last_error_of events id.now) result }
    ensures looks { OnlyAsks S.Store tables.old tables.new }
    ensures cause { IfErr result (TellsCause (state S.Store tables.old) (state S.Store tables.new)) }
{
    let row = known_row(tables, id)?;
    Ok(error_of(row))
}
