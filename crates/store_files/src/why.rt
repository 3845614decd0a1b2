// Why a file is not taken, as a host tells it to its user.
ghost use Rattle.std.specs.Prelude.{◌≡◌, true, false, Some};
ghost use Rattle.sqlite.specs.Held.{state};
ghost use Rattle.sqlite.specs.State.{HasCleanDisk};
ghost use Rattle.sqlite.specs.declared.error.Error.{Error};
ghost use Rattle.store_files.specs.RefusalReasons.{ErrorTells, IsMarkAsked, IsThisVersion, MarkTells, StoreTells, VersionTells, told_by};
ghost use Rattle.store_files.specs.declared.open.NotTaken.TheVariants.{NoStore, Unopened};

use crate::look::{damage_at, kind_at, seen_at};
use crate::open::NotTaken;
use journal_store::{NotOpened, Refusal};
use sqlite::{Alter, Connection, Error, ErrorCode, Row};
use sqlite_value::order::is_same;
use sqlite_value::value::ValueRef;
use std::fmt;
use std::rt::HostRuntime;

/// Why a file is not taken.
#[derive(Clone, Copy, Debug, PartialEq, Eq)]
pub enum Reason {
    /// Another process has it open, or this one has.
    Held,
    /// Nothing of this name is there, and none can be made.
    NotFound,
    /// This process may not read and write it.
    NotPermitted,
    /// It is a folder or a device.
    NotRegular,
    /// It has a second name, a hard link: its log would lie beside one name alone.
    SecondName,
    /// A rollback journal stands beside it, which SQLite plays back when it opens the file.
    HasJournal,
    /// The system does not give it, or not its log, for another reason.
    NotGiven,
    NoDatabase,
    /// It is a database for which `PRAGMA auto_vacuum` was set. The library does not read such a one.
    AutoVacuum,
    /// It is a damaged database, or one that the library does not read.
    Damaged,
    /// It is a database, and no store's.
    NoStore,
    /// It is a store's, of another version.
    OtherVersion,
    /// It is a store's of this version, to which something else has added tables, indexes or rows, as `ANALYZE` does.
    Changed,
    /// The disk failed or is full.
    DiskFailed,
    OutOfMemory,
}

impl Reason {
    ghost use Rattle.store_files.specs.RefusalReasons.{reason_text};

    /// As a user is told it, behind the name of the file.
    pub fn text(self) -> &'static str
        ensures { result.now ≡ reason_text self }
    {
        match self {
            Reason::Held => "another process has it open",
            Reason::NotFound => "it is not there, and cannot be made",
            Reason::NotPermitted => "it may not be read and written",
            Reason::NotRegular => "it is a folder or a device",
            Reason::SecondName => "it has a second name, a hard link",
            Reason::HasJournal => "a rollback journal stands beside it",
            Reason::NotGiven => "the system does not give it, or not its log",
            Reason::NoDatabase => "it is no database",
            Reason::AutoVacuum => {
                "it is a database with auto_vacuum, which PRAGMA auto_vacuum = 0 and VACUUM take away"
            }
            Reason::Damaged => "it is a database that is damaged, or of a kind that is not read",
            Reason::NoStore => "it is a database, and no store's",
            Reason::OtherVersion => "it is a store's, of another version",
            Reason::Changed => {
                "it is a store's, with other tables, indexes or rows than a store makes; what ANALYZE makes DROP TABLE sqlite_stat1 takes away"
            }
            Reason::DiskFailed => "the disk failed or is full",
            Reason::OutOfMemory => "memory was refused",
        }
    }
}

impl fmt::Display for Reason {
    ghost use Rattle.store_files.specs.RefusalReasons.{reason_text};

    ghost output = { λ reason. Some (reason_text reason) };

    fn fmt<W: fmt::Write>(&self, f: &mut fmt::Formatter<W>) -> fmt::Result {
        f.write_str(self.text())
    }
}

fn told(error: Error) -> Reason
    ensures { result ≡ told_by error }
{
    match error {
        Error::SqliteFailure(ErrorCode::DatabaseBusy) => Reason::Held,
        Error::SqliteFailure(ErrorCode::OutOfMemory) => Reason::OutOfMemory,
        Error::SqliteFailure(ErrorCode::DatabaseCorrupt) => Reason::Damaged,
        Error::SqliteFailure(ErrorCode::TooBig) => Reason::Damaged,
        Error::SqliteFailure(ErrorCode::NotADatabase) => Reason::Damaged,
        _ => Reason::DiskFailed,
    }
}

/// Why no connection was opened. Where the error does not say it, what stands at the path now is looked at.
fn by_error(rt: &HostRuntime, path: &str, error: Error) -> Reason
    ensures { ErrorTells error result }
{
    match error {
        Error::SqliteFailure(ErrorCode::CannotOpen) => seen_at(rt, path),
        Error::SqliteFailure(ErrorCode::NotADatabase) => kind_at(rt, path),
        Error::SqliteFailure(ErrorCode::DatabaseCorrupt) => damage_at(rt, path),
        _ => told(error),
    }
}

fn is_this_version(row: &Row) -> bool
    ensures yes { result ≡ true → IsThisVersion row.now }
    ensures no { result ≡ false → IsThisVersion row.now → ⊥ }
{
    match row.get_ref(0) {
        Ok(version) => is_same(version, ValueRef::Int(1)),
        Err(_) => false,
    }
}

fn by_version(row: &Row) -> Reason
    ensures { VersionTells row.now result }
{
    if is_this_version(row) {
        Reason::Changed
    } else {
        Reason::OtherVersion
    }
}

fn by_mark(answer: Result<Row, Error>) -> Reason
    ensures { MarkTells answer result }
{
    match answer {
        Ok(row) => by_version(&row),
        Err(Error::SqliteFailure(code)) => told(Error::SqliteFailure(code)),
        Err(_) => Reason::NoStore,
    }
}

/// Whose a database is that is not this version's: it is asked for the mark of a store.
fn asked<S: Alter>(connection: &mut Connection<S>) -> Reason
    ensures { HasCleanDisk (state S.Store connection.new) → IsMarkAsked (state S.Store connection.old) (state S.Store connection.new) result }
{
    by_mark(connection.query_row("SELECT version FROM meta WHERE name = 'journal_store'", &[]))
}

fn by_refusal<S: Alter>(connection: &mut Connection<S>, refusal: Refusal) -> Reason
    ensures { StoreTells (state S.Store connection.old) (state S.Store connection.new) refusal result }
{
    match refusal {
        Refusal::OutOfMemory => Reason::OutOfMemory,
        Refusal::StatementRefused(error) => told(error),
        _ => asked(connection),
    }
}

/// Why the file at a path was not taken. A database that was opened is asked for the mark of a store, and keeps what it has. Where the
/// system gave no file, or one that holds no database, what stands at the path now is looked at, and no clause says what that is.
pub fn reason_of<F, S: Alter>(
    rt: &HostRuntime,
    path: &str,
    why: &mut NotTaken<F, NotOpened<S>>,
) -> Reason
    ensures unopened { (error : Error) (left : _) → why.old ≡ Unopened error left → ErrorTells error result }
    ensures no_store { (left now : _) → why.old ≡ NoStore left → why.new ≡ NoStore now → StoreTells (state S.Store left.connection) (state S.Store now.connection) left.refusal result }
{
    match why {
        NotTaken::Unopened(error, _) => by_error(rt, path, *error),
        NotTaken::NoStore(left) => by_refusal(&mut left.connection, left.refusal),
    }
}
