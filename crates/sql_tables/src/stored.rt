//! Records that are kept as rows.

ghost use Rattle.std.specs.Prelude.{◌≡◌, ◌≢◌, false, List, Option, map, IfErr, IfOk, IfSome, IsTrue};
ghost use Rattle.std.specs.List.{AllByRecursion};
ghost use Rattle.std.specs.Option.{option_to_list};
ghost use Rattle.sqlite.specs.Held.{state};
ghost use Rattle.sqlite.specs.State.{HasCleanDisk, Survives};
ghost use Rattle.sqlite.specs.Values.{bound};
ghost use Rattle.sqlite_value.specs.Order.{Row};
ghost use Rattle.sql_tables.specs.QueryAnswers.{IsAnswer, AreTablesKept, IsOtherRow};
ghost use Rattle.sql_tables.specs.Causes.{IsQuestion, TellsReadCause};

use crate::query::rows_by;
use crate::read::{ReadError, RowError};
use sqlite::types::ValueRef;
use sqlite::{Alter, Connection, Row};
use std::alloc::{AllocError, Global};

/// A record that is kept as a row.
pub trait Stored: Drop + Sized {
    // The cells of its row, and what each value of the type is.
    ghost cells: { Self → Row };

    ghost fits: { Self → Type 0 };

    fn from_row(alloc: Global, row: &Row) -> Result<Self, RowError>
        ensures ok { IfOk result (λ x. (cells x ≡ row.now) × fits x) }
        ensures foreign { IfErr result (λ e. e ≡ RowError.Foreign → (x : Self) → fits x → cells x ≢ row.now) };
}

fn one_of<R: Stored>(alloc: Global, rows: &[Row]) -> Result<Option<R>, RowError>
    ensures ok { IfOk result (λ o. (map R.Stored.cells (option_to_list o) ≡ rows.now) × IfSome o R.Stored.fits) }
    ensures foreign { IfErr result (λ e. e ≡ RowError.Foreign → (o : Option R) → IfSome o R.Stored.fits → map R.Stored.cells (option_to_list o) ≢ rows.now) }
{
    match rows {
        [] => Ok(None),
        [row] => Ok(Some(R::from_row(alloc, row)?)),
        _ => Err(RowError::Foreign),
    }
}

fn all_of<R: Stored>(alloc: Global, rows: &[Row]) -> Result<Vec<R>, RowError>
    ensures ok { IfOk result (λ xs. (map R.Stored.cells xs.items ≡ rows.now) × AllByRecursion R.Stored.fits xs.items) }
    ensures foreign { IfErr result (λ e. e ≡ RowError.Foreign → (xs : List R) → AllByRecursion R.Stored.fits xs → map R.Stored.cells xs ≢ rows.now) }
{
    let mut records = Vec::new(alloc);
    for row in rows {
        let record = R::from_row(alloc, row)?;
        if let Err(full) = records.push(record) {
            return Err(AllocError::from(full).into());
        }
    }
    Ok(records)
}

/// The record that a statement asks for, where there is one. More than one are foreign.
pub fn one_by<R: Stored, S: Alter>(
    alloc: Global,
    conn: &mut Connection<S>,
    sql: &str,
    params: &[ValueRef<'_>],
) -> Result<Option<R>, ReadError>
    requires { (state S.Store conn.old).in_transaction ≡ false }
    ensures answers { HasCleanDisk (state S.Store conn.new) → IfOk result (λ o. IsTrue (state S.Store conn.old).is_open × IsAnswer sql.now (bound params.now) (state S.Store conn.old) (map R.Stored.cells (option_to_list o)) × IfSome o R.Stored.fits) }
    ensures foreign { HasCleanDisk (state S.Store conn.new) → IfErr result (λ e. e ≡ ReadError.Foreign → IsTrue (state S.Store conn.old).is_open × IsOtherRow sql.now (bound params.now) (state S.Store conn.old) (λ rows. (o : Option R) × IfSome o R.Stored.fits × (map R.Stored.cells (option_to_list o) ≡ rows))) }
    ensures cause { IsQuestion sql.now (bound params.now) (state S.Store conn.old) → IfErr result (TellsReadCause (state S.Store conn.old) (state S.Store conn.new)) }
    ensures kept { AreTablesKept (state S.Store conn.old) (state S.Store conn.new) }
    ensures idle { (state S.Store conn.new).in_transaction ≡ false }
    ensures crash { Survives (state S.Store conn.old) (state S.Store conn.new) (λ _. ⊥) }
{
    let rows = rows_by(conn, sql, params)?;
    let found = one_of(alloc, rows.as_slice())?;
    Ok(found)
}

/// The records that a statement asks for.
pub fn all_by<R: Stored, S: Alter>(
    alloc: Global,
    conn: &mut Connection<S>,
    sql: &str,
    params: &[ValueRef<'_>],
) -> Result<Vec<R>, ReadError>
    requires { (state S.Store conn.old).in_transaction ≡ false }
    ensures answers { HasCleanDisk (state S.Store conn.new) → IfOk result (λ xs. IsTrue (state S.Store conn.old).is_open × IsAnswer sql.now (bound params.now) (state S.Store conn.old) (map R.Stored.cells xs.items) × AllByRecursion R.Stored.fits xs.items) }
    ensures foreign { HasCleanDisk (state S.Store conn.new) → IfErr result (λ e. e ≡ ReadError.Foreign → IsTrue (state S.Store conn.old).is_open × IsOtherRow sql.now (bound params.now) (state S.Store conn.old) (λ rows. (xs : List R) × AllByRecursion R.Stored.fits xs × (map R.Stored.cells xs ≡ rows))) }
    ensures cause { IsQuestion sql.now (bound params.now) (state S.Store conn.old) → IfErr result (TellsReadCause (state S.Store conn.old) (state S.Store conn.new)) }
    ensures kept { AreTablesKept (state S.Store conn.old) (state S.Store conn.new) }
    ensures idle { (state S.Store conn.new).in_transaction ≡ false }
    ensures crash { Survives (state S.Store conn.old) (state S.Store conn.new) (λ _. ⊥) }
{
    let rows = rows_by(conn, sql, params)?;
    let found = all_of(alloc, rows.as_slice())?;
    Ok(found)
}
