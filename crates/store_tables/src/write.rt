//! Changes of the records, and one transaction over a list of them.

ghost use Rattle.std.specs.Prelude.{◌≡◌, ◌∷◌, [], IfSome, IsUtf8};
ghost use Rattle.sqlite.specs.Held.{state};
ghost use Rattle.sqlite.specs.State.{HasCleanDisk};
ghost use Rattle.sqlite.specs.Values.{bound, bound_value, or_null};
ghost use Rattle.sqlite_value.specs.Value.{owned};
ghost use Rattle.sqlite_value.specs.declared.value.Value.TheVariants.{Text};
ghost use Rattle.sql_tables.specs.Causes.{TellsWriteCause};
ghost use Rattle.sql_tables.specs.Cells.{IsLong, IsShort, long_cell, short_cell};
ghost use Rattle.store_tables.specs.Looks.{MakesWrites};
ghost use Rattle.store_tables.specs.Records.{FitsInvocation, FitsProgress, applied, closing_cell, delay_of, invocation_cells, progress_cells, state_cells, with_entry, with_invocation, with_progress, with_sleep, with_state, without_sleeps, without_entries, without_invocation, without_sleeps_until, without_state, without_states};
ghost use Rattle.store_tables.specs.Statements.{add_state_text, statement, statements_of, statements_of_all};
ghost use Rattle.store_tables.specs.Steps.{Alters, IsWriting};

use crate::kind::kept_kind;
use crate::row::{
    Closing, EntryRow, InvocationRow, LastError, Progress, SleepRow, StateRow, Write,
};
use crate::tables::StoreTables;
use bytes::{ByteStr, Bytes};
use sql_tables::cell::{
    blob, blob_or_null, flag, long, long_or_null, short, short_or_null, text, text_or_null,
};
use sql_tables::query::run;
use sqlite::types::ValueRef;
use sqlite::{Alter, Error, Transaction};

fn closing<'a>(value: Option<Closing>) -> ValueRef<'a>
    ensures { bound_value (owned result) ≡ or_null closing_cell value }
{
    match value {
        Some(Closing::Ended) => short(1),
        Some(Closing::Failed) => short(2),
        None => ValueRef::Null,
    }
}

fn error_code<'a>(error: &Option<LastError>) -> ValueRef<'a>
    ensures cell { bound_value (owned result) ≡ or_null (λ e. short_cell e.code) error.now }
    ensures fits { IfSome error.now (λ e. IsShort e.code) }
{
    match error {
        Some(error) => short(error.code),
        None => ValueRef::Null,
    }
}

fn error_behavior<'a>(error: &Option<LastError>) -> ValueRef<'a>
    ensures cell { bound_value (owned result) ≡ or_null (λ e. short_cell e.behavior) error.now }
    ensures fits { IfSome error.now (λ e. IsShort e.behavior) }
{
    match error {
        Some(error) => short(error.behavior),
        None => ValueRef::Null,
    }
}

fn error_delay<'a>(error: &Option<LastError>) -> ValueRef<'a>
    ensures cell { bound_value (owned result) ≡ or_null long_cell (delay_of error.now) }
    ensures fits { IfSome error.now (λ e. IfSome e.delay IsLong) }
{
    match error {
        Some(error) => long_or_null(error.delay),
        None => ValueRef::Null,
    }
}

fn error_message(error: &Option<LastError>) -> ValueRef<'_>
    ensures cell { bound_value (owned result) ≡ or_null (λ e. Text e.message) error.now }
    ensures fits { IfSome error.now (λ e. IsUtf8 e.message) }
{
    match error {
        Some(error) => text(&error.message),
        None => ValueRef::Null,
    }
}

/// What a row keeps of an invocation's progress, in the order of its columns.
fn progress_cells(progress: &Progress) -> [ValueRef<'_>; 17]
    ensures cells { bound result ≡ progress_cells progress.now }
    ensures fits { FitsProgress progress.now }
{
    [
        text_or_null(&progress.open_object),
        blob_or_null(&progress.suspension),
        short_or_null(progress.handed),
        closing(progress.closing),
        blob_or_null(&progress.answer),
        error_code(&progress.last_error),
        error_behavior(&progress.last_error),
        error_delay(&progress.last_error),
        error_message(&progress.last_error),
        short(progress.attempts),
        short(progress.attempts_since_entry),
        long(progress.first_moment),
        short(progress.last_completion),
        short(progress.entries),
        short_or_null(progress.heard),
        short(progress.arrivals),
        flag(progress.is_awake),
    ]
}

/// The row of an invocation.
fn invocation_cells(invocation: &InvocationRow) -> [ValueRef<'_>; 22]
    ensures cells { bound result ≡ invocation_cells invocation.now }
    ensures fits { FitsInvocation invocation.now }
{
    let mut cells = [ValueRef::Null; 22];
    cells[..5].copy_from_slice(&[
        text(&invocation.id),
        text(&invocation.object),
        short(invocation.version.number()),
        long(invocation.seed),
        flag(invocation.is_whole),
    ]);
    cells[5..].copy_from_slice(&progress_cells(&invocation.progress));
    cells
}

/// The id of an invocation, and what takes the place of its progress.
fn changed_cells<'a>(id: &'a ByteStr, progress: &'a Progress) -> [ValueRef<'a>; 18]
    ensures cells { bound result ≡ Text id.now ∷ progress_cells progress.now }
    ensures fits { FitsProgress progress.now }
{
    let mut cells = [ValueRef::Null; 18];
    cells[0] = text(id);
    cells[1..].copy_from_slice(&progress_cells(progress));
    cells
}

fn add_invocation<S: Alter>(
    tx: &mut Transaction<'_, S>,
    invocation: &InvocationRow,
) -> Result<(), Error>
    requires { IsWriting (state S.Store tx.old.conn.now) }
    ensures same_reference { tx.new.conn.ghost_name ≡ tx.old.conn.ghost_name }
    ensures alters { Alters S.Store (with_invocation invocation.now) (statements_of (Write.AddInvocation invocation.now)) tx.old.conn.now tx.new.conn.now result }
{
    run(
        tx,
        "INSERT INTO invocation VALUES (?1, ?2, ?3, ?4, ?5, ?6, ?7, ?8, ?9, ?10, ?11, ?12, ?13, ?14, ?15, ?16, ?17, ?18, ?19, ?20, ?21, ?22)",
        &invocation_cells(invocation),
    )
}

fn set_progress<S: Alter>(
    tx: &mut Transaction<'_, S>,
    id: &ByteStr,
    progress: &Progress,
) -> Result<(), Error>
    requires { IsWriting (state S.Store tx.old.conn.now) }
    ensures same_reference { tx.new.conn.ghost_name ≡ tx.old.conn.ghost_name }
    ensures alters { Alters S.Store (with_progress id.now progress.now) (statements_of (Write.SetProgress id.now progress.now)) tx.old.conn.now tx.new.conn.now result }
{
    run(
        tx,
        "UPDATE invocation SET open_object = ?2, suspension = ?3, handed = ?4, closing = ?5, answer = ?6, error_code = ?7, error_behavior = ?8, error_delay = ?9, error_message = ?10, attempts = ?11, attempts_since_entry = ?12, first_moment = ?13, last_completion = ?14, entries = ?15, heard = ?16, arrivals = ?17, awake = ?18 WHERE id = ?1",
        &changed_cells(id, progress),
    )
}

fn add_entry<S: Alter>(tx: &mut Transaction<'_, S>, entry: &EntryRow) -> Result<(), Error>
    requires { IsWriting (state S.Store tx.old.conn.now) }
    ensures same_reference { tx.new.conn.ghost_name ≡ tx.old.conn.ghost_name }
    ensures alters { Alters S.Store (with_entry entry.now) (statements_of (Write.AddEntry entry.now)) tx.old.conn.now tx.new.conn.now result }
{
    run(
        tx,
        "INSERT INTO entry VALUES (?1, ?2, ?3, ?4, ?5, ?6, ?7, ?8, ?9)",
        &[
            text(&entry.invocation),
            short(entry.place),
            short(kept_kind(entry.kind)),
            blob(&entry.payload),
            short_or_null(entry.completion),
            short_or_null(entry.second_completion),
            short_or_null(entry.answered),
            short_or_null(entry.arrival),
            long(entry.moment),
        ],
    )
}

fn add_state<S: Alter>(tx: &mut Transaction<'_, S>, row: &StateRow) -> Result<(), Error>
    requires { IsWriting (state S.Store tx.old.conn.now) }
    ensures same_reference { tx.new.conn.ghost_name ≡ tx.old.conn.ghost_name }
    ensures alters { Alters S.Store (with_state row.now) (statement add_state_text (state_cells row.now) ∷ []) tx.old.conn.now tx.new.conn.now result }
{
    run(
        tx,
        "INSERT INTO state VALUES (?1, ?2, ?3)",
        &[text(&row.object), blob(&row.key), blob(&row.value)],
    )
}

fn drop_state<S: Alter>(
    tx: &mut Transaction<'_, S>,
    object: &ByteStr,
    key: &Bytes,
) -> Result<(), Error>
    requires { IsWriting (state S.Store tx.old.conn.now) }
    ensures same_reference { tx.new.conn.ghost_name ≡ tx.old.conn.ghost_name }
    ensures alters { Alters S.Store (without_state object.now key.now) (statements_of (Write.DropState object.now key.now)) tx.old.conn.now tx.new.conn.now result }
{
    run(
        tx,
        "DELETE FROM state WHERE object = ?1 AND key = ?2",
        &[text(object), blob(key)],
    )
}

fn drop_states<S: Alter>(tx: &mut Transaction<'_, S>, object: &ByteStr) -> Result<(), Error>
    requires { IsWriting (state S.Store tx.old.conn.now) }
    ensures same_reference { tx.new.conn.ghost_name ≡ tx.old.conn.ghost_name }
    ensures alters { Alters S.Store (without_states object.now) (statements_of (Write.DropStates object.now)) tx.old.conn.now tx.new.conn.now result }
{
    run(tx, "DELETE FROM state WHERE object = ?1", &[text(object)])
}

fn put_state<S: Alter>(tx: &mut Transaction<'_, S>, row: &StateRow) -> Result<(), Error>
    requires { IsWriting (state S.Store tx.old.conn.now) }
    ensures same_reference { tx.new.conn.ghost_name ≡ tx.old.conn.ghost_name }
    ensures alters { Alters S.Store (λ r. with_state row.now (without_state row.now.object row.now.key r)) (statements_of (Write.PutState row.now)) tx.old.conn.now tx.new.conn.now result }
{
    drop_state(tx, &row.object, &row.key)?;
    add_state(tx, row)
}

fn open_sleep<S: Alter>(tx: &mut Transaction<'_, S>, sleep: &SleepRow) -> Result<(), Error>
    requires { IsWriting (state S.Store tx.old.conn.now) }
    ensures same_reference { tx.new.conn.ghost_name ≡ tx.old.conn.ghost_name }
    ensures alters { Alters S.Store (with_sleep sleep.now) (statements_of (Write.OpenSleep sleep.now)) tx.old.conn.now tx.new.conn.now result }
{
    run(
        tx,
        "INSERT INTO sleep VALUES (?1, ?2, ?3)",
        &[
            long(sleep.moment),
            text(&sleep.invocation),
            short(sleep.completion),
        ],
    )
}

fn close_sleeps<S: Alter>(tx: &mut Transaction<'_, S>, invocation: &ByteStr) -> Result<(), Error>
    requires { IsWriting (state S.Store tx.old.conn.now) }
    ensures same_reference { tx.new.conn.ghost_name ≡ tx.old.conn.ghost_name }
    ensures alters { Alters S.Store (without_sleeps invocation.now) (statements_of (Write.CloseSleeps invocation.now)) tx.old.conn.now tx.new.conn.now result }
{
    run(
        tx,
        "DELETE FROM sleep WHERE invocation = ?1",
        &[text(invocation)],
    )
}

fn close_sleeps_until<S: Alter>(tx: &mut Transaction<'_, S>, moment: u64) -> Result<(), Error>
    requires { IsWriting (state S.Store tx.old.conn.now) }
    ensures same_reference { tx.new.conn.ghost_name ≡ tx.old.conn.ghost_name }
    ensures alters { Alters S.Store (without_sleeps_until moment) (statements_of (Write.CloseSleepsUntil moment)) tx.old.conn.now tx.new.conn.now result }
{
    run(tx, "DELETE FROM sleep WHERE moment <= ?1", &[long(moment)])
}

fn drop_invocation<S: Alter>(tx: &mut Transaction<'_, S>, id: &ByteStr) -> Result<(), Error>
    requires { IsWriting (state S.Store tx.old.conn.now) }
    ensures same_reference { tx.new.conn.ghost_name ≡ tx.old.conn.ghost_name }
    ensures alters { Alters S.Store (without_invocation id.now) (statements_of (Write.DropInvocation id.now)) tx.old.conn.now tx.new.conn.now result }
{
    run(tx, "DELETE FROM invocation WHERE id = ?1", &[text(id)])
}

fn drop_entries<S: Alter>(tx: &mut Transaction<'_, S>, invocation: &ByteStr) -> Result<(), Error>
    requires { IsWriting (state S.Store tx.old.conn.now) }
    ensures same_reference { tx.new.conn.ghost_name ≡ tx.old.conn.ghost_name }
    ensures alters { Alters S.Store (without_entries invocation.now) (statements_of (Write.DropEntries invocation.now)) tx.old.conn.now tx.new.conn.now result }
{
    run(
        tx,
        "DELETE FROM entry WHERE invocation = ?1",
        &[text(invocation)],
    )
}

fn apply<S: Alter>(tx: &mut Transaction<'_, S>, write: &Write) -> Result<(), Error>
    requires { IsWriting (state S.Store tx.old.conn.now) }
    ensures same_reference { tx.new.conn.ghost_name ≡ tx.old.conn.ghost_name }
    ensures alters { Alters S.Store (applied write.now) (statements_of write.now) tx.old.conn.now tx.new.conn.now result }
{
    match write {
        Write::AddInvocation(invocation) => add_invocation(tx, invocation),
        Write::SetProgress { id, progress } => set_progress(tx, id, progress),
        Write::AddEntry(entry) => add_entry(tx, entry),
        Write::PutState(row) => put_state(tx, row),
        Write::DropState { object, key } => drop_state(tx, object, key),
        Write::DropStates { object } => drop_states(tx, object),
        Write::OpenSleep(sleep) => open_sleep(tx, sleep),
        Write::CloseSleeps { invocation } => close_sleeps(tx, invocation),
        Write::CloseSleepsUntil { moment } => close_sleeps_until(tx, *moment),
        Write::DropInvocation { id } => drop_invocation(tx, id),
        Write::DropEntries { invocation } => drop_entries(tx, invocation),
    }
}

/// All of the writes or none of them, also over a crash, in one transaction. Once they are told to be made, a crash leaves them
/// alone. Where there are none, nothing is done.
pub fn commit_all<S: Alter>(tables: &mut StoreTables<S>, writes: &[Write]) -> Result<(), Error>
    ensures { MakesWrites S.Store writes.now (TellsWriteCause (statements_of_all writes.now) (state S.Store tables.old) (state S.Store tables.new)) tables.old tables.new result }
{
    if writes.is_empty() {
        return Ok(());
    }
    let conn = &mut tables.connection;
    let _settled = conn.is_autocommit();
    let mut tx = conn.transaction();
    for write in writes {
        apply(&mut tx, write)?;
    }
    tx.commit()
}
