//! Statements: questions about the tables, and changes inside a transaction.

ghost use Rattle.std.specs.Prelude.{◌≡◌, false, IfErr, IfOk, IsTrue, OnOk};
ghost use Rattle.sqlite.specs.Held.{state};
ghost use Rattle.sqlite.specs.State.{HasCleanDisk, KeepsCommit, Survives};
ghost use Rattle.sqlite.specs.Values.{bound};
ghost use Rattle.sqlite.specs.declared.error.Error.{Error};
ghost use Rattle.sql_tables.specs.QueryAnswers.{HasRun, IsAnswer, AreTablesKept};
ghost use Rattle.sql_tables.specs.Causes.{IsQuestion, RefusesToRun, TellsReadCause};

use crate::read::ReadError;
use sqlite::types::ValueRef;
use sqlite::{Alter, Connection, Error, Row, Transaction};

/// The rows that a statement asks for. What it may have written is undone.
pub fn rows_by<S: Alter>(
    conn: &mut Connection<S>,
    sql: &str,
    params: &[ValueRef<'_>],
) -> Result<Vec<Row>, ReadError>
    requires { (state S.Store conn.old).in_transaction ≡ false }
    ensures answers { HasCleanDisk (state S.Store conn.new) → IfOk result (λ rows. IsTrue (state S.Store conn.old).is_open × IsAnswer sql.now (bound params.now) (state S.Store conn.old) rows.items) }
    ensures refused { IfErr result (λ e. (cause : Error) × (e ≡ ReadError.Refused cause)) }
    ensures cause { IsQuestion sql.now (bound params.now) (state S.Store conn.old) → IfErr result (TellsReadCause (state S.Store conn.old) (state S.Store conn.new)) }
    ensures kept { AreTablesKept (state S.Store conn.old) (state S.Store conn.new) }
    ensures idle { (state S.Store conn.new).in_transaction ≡ false }
    ensures crash { Survives (state S.Store conn.old) (state S.Store conn.new) (λ _. ⊥) }
{
    let _settled = conn.is_autocommit();
    let mut tx = conn.transaction();
    let rows = tx.query_all(sql, params);
    drop(tx);
    match rows {
        Ok(rows) => Ok(rows),
        Err(cause) => Err(ReadError::Refused(cause)),
    }
}

/// Runs a statement that shows no rows.
pub fn run<S: Alter>(
    tx: &mut Transaction<'_, S>,
    sql: &str,
    params: &[ValueRef<'_>],
) -> Result<(), Error>
    ensures same_reference { tx.new.conn.ghost_name ≡ tx.old.conn.ghost_name }
    ensures ran { HasCleanDisk (state S.Store tx.new.conn.now) → OnOk result (HasRun sql.now (bound params.now) (state S.Store tx.old.conn.now) (state S.Store tx.new.conn.now)) }
    ensures refused { HasCleanDisk (state S.Store tx.new.conn.now) → IfErr result (RefusesToRun sql.now (bound params.now) (state S.Store tx.old.conn.now) (state S.Store tx.new.conn.now)) }
    ensures kept { HasCleanDisk (state S.Store tx.new.conn.now) → KeepsCommit (state S.Store tx.old.conn.now) (state S.Store tx.new.conn.now) }
    ensures survives { Survives (state S.Store tx.old.conn.now) (state S.Store tx.new.conn.now) (λ _. ⊥) }
{
    tx.execute(sql, params)?;
    Ok(())
}
