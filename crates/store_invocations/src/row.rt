//! The row of an invocation, as the calls that change one begin with it.

ghost use Rattle.std.specs.Prelude.{◌≡◌, List, IfErr};
ghost use Rattle.sqlite.specs.Held.{state};
ghost use Rattle.sqlite.specs.State.{HasCleanDisk};
ghost use Rattle.journal_model.specs.Event.{Event};
ghost use Rattle.journal_model.specs.Cause.{open_tests};
ghost use Rattle.store_tables.specs.Looks.{OnlyAsks};
ghost use Rattle.store_refusals.specs.Preparations.{TellsOrRefuses};
ghost use Rattle.store_invocations.specs.Rows.{Decides, IsOpenRow, IsRowOf, IsStoreOf, known_tests, row_at};
ghost use Rattle.store_refusals.specs.Causes.{TellsCause};

use bytes::ByteStr;
use sqlite::Alter;
use std::alloc::Global;
use store_refusals::{Cause, Refusal};
use store_tables::{InvocationRow, StoreTables, invocation_by_id};

/// The row of an invocation, where one was begun under this id.
pub fn row_of<S: Alter>(
    tables: &mut StoreTables<S>,
    id: &ByteStr,
) -> Result<Option<InvocationRow>, Refusal>
    ensures told { HasCleanDisk (state S.Store tables.new) → (events : List Event) → IsStoreOf events (state S.Store tables.old) → TellsOrRefuses (λ row. row ≡ row_at events id.now) result }
    ensures looks { OnlyAsks S.Store tables.old tables.new }
    ensures cause { IfErr result (TellsCause (state S.Store tables.old) (state S.Store tables.new)) }
{
    let row = invocation_by_id(tables, id)?;
    Ok(row)
}

/// The row of an invocation that was begun.
pub fn known_row<S: Alter>(
    tables: &mut StoreTables<S>,
    id: &ByteStr,
) -> Result<InvocationRow, Refusal>
    ensures decided { HasCleanDisk (state S.Store tables.new) → (events : List Event) → IsStoreOf events (state S.Store tables.old) → Decides (known_tests events id.now) (IsRowOf events id.now) result }
    ensures looks { OnlyAsks S.Store tables.old tables.new }
    ensures cause { IfErr result (TellsCause (state S.Store tables.old) (state S.Store tables.new)) }
{
    let found = row_of(tables, id)?;
    match found {
        Some(row) => Ok(row),
        None => Err(Refusal::Cause(Cause::UnknownInvocation)),
    }
}

/// The row of an open invocation.
pub fn open_row<S: Alter>(
    tables: &mut StoreTables<S>,
    id: &ByteStr,
) -> Result<InvocationRow, Refusal>
    ensures decided { HasCleanDisk (state S.Store tables.new) → (events : List Event) → IsStoreOf events (state S.Store tables.old) → Decides (open_tests events id.now) (IsOpenRow events id.now) result }
    ensures looks { OnlyAsks S.Store tables.old tables.new }
    ensures cause { IfErr result (TellsCause (state S.Store tables.old) (state S.Store tables.new)) }
{
    let row = known_row(tables, id)?;
    if row.progress.closing.is_some() {
        drop(row);
        return Err(Refusal::Cause(Cause::InvocationClosed));
    }
    Ok(row)
}
