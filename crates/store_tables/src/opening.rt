//! The tables of a new store.

ghost use Rattle.std.specs.Prelude.{◌≡◌, ◌≢◌, Some, false, IfErr, IfOk, IsTrue, OnErr, OnOk};
ghost use Rattle.sqlite.specs.Held.{state};
ghost use Rattle.sqlite.specs.State.{HasCleanDisk, KeepsCommit, Survives};
ghost use Rattle.sql_tables.specs.QueryAnswers.{AreTablesKept};
ghost use Rattle.sql_tables.specs.Causes.{TellsErrorCause, TellsReadCause};
ghost use Rattle.sql_tables.specs.Columns.{no_schema};
ghost use Rattle.store_tables.specs.Records.{Holds, IsMarked, Records, no_records, the_mark};
ghost use Rattle.store_tables.specs.Steps.{AreTablesMade, IsStore};
ghost use Rattle.store_tables.specs.Tables.{store_schema, with_arrival, with_awake, with_state};

use crate::layout::{is_empty_schema, is_store_schema};
use crate::row::Mark;
use sql_tables::query::run;
use sql_tables::read::ReadError;
use sql_tables::stored::one_by;
use sqlite::{Alter, Connection, Error, Transaction};
use std::alloc::Global;

fn make_tables<S: Alter>(tx: &mut Transaction<'_, S>) -> Result<(), Error>
    requires empty { HasCleanDisk (state S.Store tx.old.conn.now) → IsTrue (state S.Store tx.old.conn.now).is_open → (state S.Store tx.old.conn.now).now.schema ≡ no_schema }
    requires inside { HasCleanDisk (state S.Store tx.old.conn.now) → IsTrue (state S.Store tx.old.conn.now).in_transaction }
    ensures same_reference { tx.new.conn.ghost_name ≡ tx.old.conn.ghost_name }
    ensures ok { HasCleanDisk (state S.Store tx.new.conn.now) → OnOk result (AreTablesMade with_state (state S.Store tx.new.conn.now)) }
    ensures cause { IfErr result (TellsErrorCause (state S.Store tx.old.conn.now) (state S.Store tx.new.conn.now)) }
    ensures kept { HasCleanDisk (state S.Store tx.new.conn.now) → KeepsCommit (state S.Store tx.old.conn.now) (state S.Store tx.new.conn.now) }
    ensures survives { Survives (state S.Store tx.old.conn.now) (state S.Store tx.new.conn.now) (λ _. ⊥) }
{
    run(
        tx,
        "CREATE TABLE entry (invocation TEXT NOT NULL, place INTEGER NOT NULL, kind INTEGER NOT NULL, payload BLOB NOT NULL, completion INTEGER, second_completion INTEGER, answered INTEGER, arrival INTEGER, moment INTEGER NOT NULL) STRICT",
        &[],
    )?;
    run(
        tx,
        "CREATE TABLE invocation (id TEXT NOT NULL UNIQUE, object TEXT NOT NULL, version INTEGER NOT NULL, seed INTEGER NOT NULL, mode INTEGER NOT NULL, open_object TEXT, suspension BLOB, handed INTEGER, closing INTEGER, answer BLOB, error_code INTEGER, error_behavior INTEGER, error_delay INTEGER, error_message TEXT, attempts INTEGER NOT NULL, attempts_since_entry INTEGER NOT NULL, first_moment INTEGER NOT NULL, last_completion INTEGER NOT NULL, entries INTEGER NOT NULL, heard INTEGER, arrivals INTEGER NOT NULL, awake INTEGER NOT NULL) STRICT",
        &[],
    )?;
    run(
        tx,
        "CREATE TABLE meta (name TEXT NOT NULL, version INTEGER NOT NULL) STRICT",
        &[],
    )?;
    run(
        tx,
        "CREATE TABLE sleep (moment INTEGER NOT NULL, invocation TEXT NOT NULL, completion INTEGER NOT NULL) STRICT",
        &[],
    )?;
    run(
        tx,
        "CREATE TABLE state (object TEXT NOT NULL, key BLOB NOT NULL, value BLOB NOT NULL, UNIQUE (object, key)) STRICT",
        &[],
    )
}

fn index_invocations<S: Alter>(tx: &mut Transaction<'_, S>) -> Result<(), Error>
    requires { HasCleanDisk (state S.Store tx.old.conn.now) → AreTablesMade with_state (state S.Store tx.old.conn.now) }
    ensures same_reference { tx.new.conn.ghost_name ≡ tx.old.conn.ghost_name }
    ensures ok { HasCleanDisk (state S.Store tx.new.conn.now) → OnOk result (AreTablesMade with_awake (state S.Store tx.new.conn.now)) }
    ensures cause { IfErr result (TellsErrorCause (state S.Store tx.old.conn.now) (state S.Store tx.new.conn.now)) }
    ensures kept { HasCleanDisk (state S.Store tx.new.conn.now) → KeepsCommit (state S.Store tx.old.conn.now) (state S.Store tx.new.conn.now) }
    ensures survives { Survives (state S.Store tx.old.conn.now) (state S.Store tx.new.conn.now) (λ _. ⊥) }
{
    run(
        tx,
        "CREATE INDEX invocation_by_open_object ON invocation (open_object)",
        &[],
    )?;
    run(
        tx,
        "CREATE INDEX invocation_by_awake ON invocation (awake)",
        &[],
    )
}

fn index_entries<S: Alter>(tx: &mut Transaction<'_, S>) -> Result<(), Error>
    requires { HasCleanDisk (state S.Store tx.old.conn.now) → AreTablesMade with_awake (state S.Store tx.old.conn.now) }
    ensures same_reference { tx.new.conn.ghost_name ≡ tx.old.conn.ghost_name }
    ensures ok { HasCleanDisk (state S.Store tx.new.conn.now) → OnOk result (AreTablesMade with_arrival (state S.Store tx.new.conn.now)) }
    ensures cause { IfErr result (TellsErrorCause (state S.Store tx.old.conn.now) (state S.Store tx.new.conn.now)) }
    ensures kept { HasCleanDisk (state S.Store tx.new.conn.now) → KeepsCommit (state S.Store tx.old.conn.now) (state S.Store tx.new.conn.now) }
    ensures survives { Survives (state S.Store tx.old.conn.now) (state S.Store tx.new.conn.now) (λ _. ⊥) }
{
    run(
        tx,
        "CREATE INDEX entry_by_place ON entry (invocation, place)",
        &[],
    )?;
    run(
        tx,
        "CREATE INDEX entry_by_completion ON entry (invocation, completion)",
        &[],
    )?;
    run(
        tx,
        "CREATE INDEX entry_by_second_completion ON entry (invocation, second_completion)",
        &[],
    )?;
    run(
        tx,
        "CREATE INDEX entry_by_answered ON entry (invocation, answered)",
        &[],
    )?;
    run(
        tx,
        "CREATE INDEX entry_by_arrival ON entry (invocation, arrival)",
        &[],
    )
}

fn index_sleeps<S: Alter>(tx: &mut Transaction<'_, S>) -> Result<(), Error>
    requires { HasCleanDisk (state S.Store tx.old.conn.now) → AreTablesMade with_arrival (state S.Store tx.old.conn.now) }
    ensures same_reference { tx.new.conn.ghost_name ≡ tx.old.conn.ghost_name }
    ensures ok { HasCleanDisk (state S.Store tx.new.conn.now) → OnOk result (AreTablesMade store_schema (state S.Store tx.new.conn.now)) }
    ensures cause { IfErr result (TellsErrorCause (state S.Store tx.old.conn.now) (state S.Store tx.new.conn.now)) }
    ensures kept { HasCleanDisk (state S.Store tx.new.conn.now) → KeepsCommit (state S.Store tx.old.conn.now) (state S.Store tx.new.conn.now) }
    ensures survives { Survives (state S.Store tx.old.conn.now) (state S.Store tx.new.conn.now) (λ _. ⊥) }
{
    run(
        tx,
        "CREATE INDEX sleep_by_invocation ON sleep (invocation, completion)",
        &[],
    )?;
    run(tx, "CREATE INDEX sleep_by_moment ON sleep (moment)", &[])
}

/// All tables by name, and then all indexes.
fn make_schema<S: Alter>(tx: &mut Transaction<'_, S>) -> Result<(), Error>
    requires empty { HasCleanDisk (state S.Store tx.old.conn.now) → IsTrue (state S.Store tx.old.conn.now).is_open → (state S.Store tx.old.conn.now).now.schema ≡ no_schema }
    requires inside { HasCleanDisk (state S.Store tx.old.conn.now) → IsTrue (state S.Store tx.old.conn.now).in_transaction }
    ensures same_reference { tx.new.conn.ghost_name ≡ tx.old.conn.ghost_name }
    ensures ok { HasCleanDisk (state S.Store tx.new.conn.now) → OnOk result (AreTablesMade store_schema (state S.Store tx.new.conn.now)) }
    ensures cause { IfErr result (TellsErrorCause (state S.Store tx.old.conn.now) (state S.Store tx.new.conn.now)) }
    ensures kept { HasCleanDisk (state S.Store tx.new.conn.now) → KeepsCommit (state S.Store tx.old.conn.now) (state S.Store tx.new.conn.now) }
    ensures survives { Survives (state S.Store tx.old.conn.now) (state S.Store tx.new.conn.now) (λ _. ⊥) }
{
    make_tables(tx)?;
    index_invocations(tx)?;
    index_entries(tx)?;
    index_sleeps(tx)
}

/// The row by which a database is a store's.
fn add_mark<S: Alter>(tx: &mut Transaction<'_, S>) -> Result<(), Error>
    requires { HasCleanDisk (state S.Store tx.old.conn.now) → AreTablesMade store_schema (state S.Store tx.old.conn.now) }
    ensures same_reference { tx.new.conn.ghost_name ≡ tx.old.conn.ghost_name }
    ensures ok { HasCleanDisk (state S.Store tx.new.conn.now) → OnOk result (((state S.Store tx.new.conn.now).now.schema ≡ store_schema) × IsTrue (state S.Store tx.new.conn.now).in_transaction × Holds (state S.Store tx.new.conn.now).now.trees no_records) }
    ensures cause { IfErr result (TellsErrorCause (state S.Store tx.old.conn.now) (state S.Store tx.new.conn.now)) }
    ensures kept { HasCleanDisk (state S.Store tx.new.conn.now) → KeepsCommit (state S.Store tx.old.conn.now) (state S.Store tx.new.conn.now) }
    ensures survives { Survives (state S.Store tx.old.conn.now) (state S.Store tx.new.conn.now) (λ _. ⊥) }
{
    run(tx, "INSERT INTO meta VALUES ('journal_store', 1)", &[])
}

/// Makes the tables of an empty database, all of them or none.
fn create<S: Alter>(conn: &mut Connection<S>) -> Result<(), Error>
    requires empty { HasCleanDisk (state S.Store conn.old) → IsTrue (state S.Store conn.old).is_open → (state S.Store conn.old).now.schema ≡ no_schema }
    requires idle { (state S.Store conn.old).in_transaction ≡ false }
    ensures made { HasCleanDisk (state S.Store conn.new) → OnOk result (((state S.Store conn.new).now.schema ≡ store_schema) × Holds (state S.Store conn.new).now.trees no_records) }
    ensures cause { IfErr result (TellsErrorCause (state S.Store conn.old) (state S.Store conn.new)) }
    ensures undone { OnErr result (AreTablesKept (state S.Store conn.old) (state S.Store conn.new)) }
    ensures idle { (state S.Store conn.new).in_transaction ≡ false }
    ensures crash { Survives (state S.Store conn.old) (state S.Store conn.new) (λ trees. Holds trees no_records) }
{
    let _settled = conn.is_autocommit();
    let mut tx = conn.transaction();
    make_schema(&mut tx)?;
    add_mark(&mut tx)?;
    tx.commit()
}

fn is_own(mark: &Option<Mark>) -> bool
    ensures own { IsTrue result → mark.now ≡ Some the_mark }
    ensures held { mark.now ≡ Some the_mark → IsTrue result }
{
    match mark {
        Some(mark) => mark.name.as_str() == "journal_store" && mark.version == 1,
        None => false,
    }
}

/// Whether the row is there by which a database is a store's.
fn is_marked<S: Alter>(alloc: Global, conn: &mut Connection<S>) -> Result<bool, ReadError>
    requires store { IsStore (state S.Store conn.old) }
    requires idle { (state S.Store conn.old).in_transaction ≡ false }
    ensures marked { HasCleanDisk (state S.Store conn.new) → IfOk result (λ b. IsTrue b → IsMarked (state S.Store conn.old).now.trees) }
    ensures held { HasCleanDisk (state S.Store conn.new) → IfOk result (λ b. (r : Records) → Holds (state S.Store conn.old).now.trees r → IsTrue b) }
    ensures foreign { HasCleanDisk (state S.Store conn.new) → IfErr result (λ e. e ≡ ReadError.Foreign → (r : Records) → Holds (state S.Store conn.old).now.trees r → ⊥) }
    ensures cause { IfErr result (TellsReadCause (state S.Store conn.old) (state S.Store conn.new)) }
    ensures kept { AreTablesKept (state S.Store conn.old) (state S.Store conn.new) }
    ensures idle { (state S.Store conn.new).in_transaction ≡ false }
    ensures crash { Survives (state S.Store conn.old) (state S.Store conn.new) (λ _. ⊥) }
{
    let mark: Option<Mark> = one_by(alloc, conn, "SELECT * FROM meta", &[])?;
    Ok(is_own(&mark))
}

/// Gives an empty database the tables of a store, and takes a database that has them. What its rows are is not looked at: a row
/// that no store writes is met where it is read.
pub fn open<S: Alter>(alloc: Global, conn: &mut Connection<S>) -> Result<(), ReadError>
    requires { (state S.Store conn.old).in_transaction ≡ false }
    ensures fresh { HasCleanDisk (state S.Store conn.new) → OnOk result ((state S.Store conn.old).now.schema ≡ no_schema → Holds (state S.Store conn.new).now.trees no_records) }
    ensures taken { HasCleanDisk (state S.Store conn.new) → OnOk result ((state S.Store conn.old).now.schema ≢ no_schema → ((state S.Store conn.old).now.schema ≡ store_schema) × IsMarked (state S.Store conn.old).now.trees × AreTablesKept (state S.Store conn.old) (state S.Store conn.new)) }
    ensures store { OnOk result (IsStore (state S.Store conn.new)) }
    ensures refused { OnErr result (AreTablesKept (state S.Store conn.old) (state S.Store conn.new)) }
    ensures foreign { HasCleanDisk (state S.Store conn.new) → IfErr result (λ e. e ≡ ReadError.Foreign → ((state S.Store conn.old).now.schema ≢ no_schema) × ((state S.Store conn.old).now.schema ≡ store_schema → (r : Records) → Holds (state S.Store conn.old).now.trees r → ⊥)) }
    ensures cause { IfErr result (TellsReadCause (state S.Store conn.old) (state S.Store conn.new)) }
    ensures idle { (state S.Store conn.new).in_transaction ≡ false }
    ensures crash { Survives (state S.Store conn.old) (state S.Store conn.new) (λ trees. ((state S.Store conn.old).now.schema ≡ no_schema) × Holds trees no_records) }
{
    if is_empty_schema(conn.schema()) {
        return match create(conn) {
            Ok(()) => Ok(()),
            Err(cause) => Err(ReadError::Refused(cause)),
        };
    }
    if !is_store_schema(conn.schema()) {
        return Err(ReadError::Foreign);
    }
    if !is_marked(alloc, conn)? {
        return Err(ReadError::Foreign);
    }
    Ok(())
}

/// Whether a connection may be asked and changed: it has the tables of a store, and no transaction is under way.
pub fn is_ready<S: Alter>(conn: &Connection<S>) -> bool
    ensures store { IsTrue result → IsStore (state S.Store conn.now) }
    ensures idle { IsTrue result → (state S.Store conn.now).in_transaction ≡ false }
    ensures complete { (state S.Store conn.now).now.schema ≡ store_schema → (state S.Store conn.now).in_transaction ≡ false → IsTrue result }
{
    is_store_schema(conn.schema()) && conn.is_autocommit()
}
