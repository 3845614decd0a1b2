//! The invocations, page by page.

ghost use Rattle.std.specs.Prelude.{◌≡◌, [], Some, None, List, slice_get, IfErr};
ghost use Rattle.std.specs.Option.{option_copied};
ghost use Rattle.sqlite.specs.Held.{state};
ghost use Rattle.sqlite.specs.State.{HasCleanDisk};
ghost use Rattle.journal_model.specs.Event.{Event};
ghost use Rattle.store_tables.specs.Looks.{OnlyAsks};
ghost use Rattle.store_refusals.specs.Preparations.{TellsOrRefuses};
ghost use Rattle.store_refusals.specs.Causes.{TellsCause};
ghost use Rattle.store_invocations.specs.Rows.{IsStoreOf};
ghost use Rattle.store_reads.specs.Page.{invocations_after, last_id, rows_behind};

use bytes::ByteStr;
use sqlite::Alter;
use store_refusals::Refusal;
use store_tables::{InvocationRow, StoreTables, first_invocation, invocation_after};

/// The first of all.
fn first_row<S: Alter>(tables: &mut StoreTables<S>) -> Result<Option<InvocationRow>, Refusal>
    ensures told { HasCleanDisk (state S.Store tables.new) → (events : List Event) → IsStoreOf events (state S.Store tables.old)
        → TellsOrRefuses (λ row. row ≡ slice_get (rows_behind events None) 0) result }
    ensures looks { OnlyAsks S.Store tables.old tables.new }
    ensures cause { IfErr result (TellsCause (state S.Store tables.old) (state S.Store tables.new)) }
{
    let row = first_invocation(tables)?;
    Ok(row)
}

/// The first of those whose ids are above one.
pub(crate) fn row_above<S: Alter>(
    tables: &mut StoreTables<S>,
    id: &ByteStr,
) -> Result<Option<InvocationRow>, Refusal>
    ensures told { HasCleanDisk (state S.Store tables.new) → (events : List Event) → IsStoreOf events (state S.Store tables.old)
        → TellsOrRefuses (λ row. row ≡ slice_get (rows_behind events (Some id.now)) 0) result }
    ensures looks { OnlyAsks S.Store tables.old tables.new }
    ensures cause { IfErr result (TellsCause (state S.Store tables.old) (state S.Store tables.new)) }
{
    let row = invocation_after(tables, id)?;
    Ok(row)
}

/// The id behind which a page goes on.
fn id_behind<'a>(after: Option<&'a ByteStr>, rows: &'a [InvocationRow]) -> Option<&'a ByteStr>
    ensures { option_copied result ≡ last_id (option_copied after.entry) rows.now }
{
    match rows.last() {
        Some(row) => Some(&row.id),
        None => after,
    }
}

/// The next row of a page.
fn next_row<S: Alter>(
    tables: &mut StoreTables<S>,
    after: Option<&ByteStr>,
    rows: &[InvocationRow],
) -> Result<Option<InvocationRow>, Refusal>
    ensures told { HasCleanDisk (state S.Store tables.new) → (events : List Event) → IsStoreOf events (state S.Store tables.old)
        → TellsOrRefuses (λ row. row ≡ slice_get (rows_behind events (last_id (option_copied after.entry) rows.now)) 0) result }
    ensures looks { OnlyAsks S.Store tables.old tables.new }
    ensures cause { IfErr result (TellsCause (state S.Store tables.old) (state S.Store tables.new)) }
{
    match id_behind(after, rows) {
        Some(id) => row_above(tables, id),
        None => first_row(tables),
    }
}

/// Puts the rows of a page behind none.
fn add_rows<S: Alter>(
    tables: &mut StoreTables<S>,
    after: Option<&ByteStr>,
    most: usize,
    rows: &mut Vec<InvocationRow>,
) -> Result<(), Refusal>
    ensures told { HasCleanDisk (state S.Store tables.new) → (events : List Event) → IsStoreOf events (state S.Store tables.old) → rows.old.items ≡ []
        → TellsOrRefuses (λ _. rows.new.items ≡ invocations_after events (option_copied after.entry) most) result }
    ensures looks { OnlyAsks S.Store tables.old tables.new }
    ensures cause { IfErr result (TellsCause (state S.Store tables.old) (state S.Store tables.new)) }
{
    while rows.len() < most {
        match next_row(tables, after, rows.as_slice())? {
            Some(row) => rows.push(row)?,
            None => return Ok(()),
        }
    }
    Ok(())
}

/// The rows of the first so many invocations whose ids are above one, or of all. A row of each is read, and none of any other.
pub fn invocations_after<S: Alter>(
    tables: &mut StoreTables<S>,
    after: Option<&ByteStr>,
    most: usize,
) -> Result<Vec<InvocationRow>, Refusal>
    ensures told { HasCleanDisk (state S.Store tables.new) → (events : List Event) → IsStoreOf events (state S.Store tables.old)
        → TellsOrRefuses (λ rows. rows.items ≡ invocations_after events (option_copied after.entry) most) result }
    ensures looks { OnlyAsks S.Store tables.old tables.new }
    ensures cause { IfErr result (TellsCause (state S.Store tables.old) (state S.Store tables.new)) }
{
    let mut rows = Vec::new(tables.alloc());
    add_rows(tables, after, most, &mut rows)?;
    Ok(rows)
}
