//! The database that a call names: opened, and closed.
ghost use Rattle.std.specs.Prelude.{◌≡◌, ◌↔◌, true, List, [], codes, Err, IfOk, IfErr};
ghost use Rattle.sqlite_wal.specs.Files.{image_at};
ghost use Rattle.sqlite.specs.Files.{file_state};
ghost use Rattle.sqlite.specs.State.{HasCleanDisk};
ghost use Rattle.journal_model.specs.Event.{Event};
ghost use Rattle.journal_model.specs.Cause.{after_open};
ghost use Rattle.journal_store.specs.StoreStanding.{Stands};
ghost use Rattle.store_files.specs.Files.{IsNoFile, KeepsEvents};
ghost use Rattle.durable.specs.Fault.{IsDatabaseRefused};

use crate::fault::ProgramFault;
use journal_store::Store;
use sqlite::{Error, ErrorCode, FileFrom, FileStore, Start};
use sqlite_disk::Disk;
use std::alloc::Global;
use std::rt::HostRuntime;
use store_files::{
    FoundFiles, MemoryFile, Reason, close_file, let_go, open_file, open_in_memory, reason_of,
};

/// The store of no invocation, in memory.
pub(crate) fn open_memory(alloc: Global) -> Result<Store<FileStore<MemoryFile>>, ProgramFault>
    ensures ok { IfOk result (λ store. Stands [] (file_state store.connection) store.live.attempts) }
    ensures clean { IfOk result (λ store. HasCleanDisk (file_state store.connection)) }
    ensures err { IfErr result IsDatabaseRefused }
{
    match open_in_memory(alloc) {
        Ok(store) => Ok(store),
        Err(why) => {
            drop(why);
            Err(ProgramFault::DatabaseRefused(Reason::OutOfMemory))
        }
    }
}

/// Why a file cannot be closed.
fn unclosed(error: Error) -> Reason {
    match error {
        Error::SqliteFailure(ErrorCode::OutOfMemory) => Reason::OutOfMemory,
        _ => Reason::DiskFailed,
    }
}

/// Closes the file under a store. What is recorded stays where that fails.
pub(crate) fn close<D: Disk + Drop>(store: Store<FileStore<D>>) -> Result<(), ProgramFault>
    ensures err { IfErr result IsDatabaseRefused }
{
    match close_file(store) {
        Ok(files) => {
            drop(files);
            Ok(())
        }
        Err((error, left)) => {
            drop(left);
            Err(ProgramFault::DatabaseRefused(unclosed(error)))
        }
    }
}

/// The store in the file at a path.
pub(crate) fn open_path<S: Start>(
    rt: &HostRuntime,
    path: &str,
    start: S,
) -> Result<Store<FileStore<FileFrom<S>>>, ProgramFault>
    ensures none { IfOk result (λ store. HasCleanDisk (file_state store.connection) → IsNoFile (image_at S.Start) → Stands [] (file_state store.connection) store.live.attempts) }
    ensures kept { IfOk result (λ store. HasCleanDisk (file_state store.connection) → (events : List Event) → KeepsEvents events (image_at S.Start) → Stands (after_open events) (file_state store.connection) store.live.attempts) }
    ensures err { IfErr result IsDatabaseRefused }
{
    let found = FoundFiles::at(rt, path);
    match open_file(rt, path, start) {
        Ok(store) => Ok(store),
        Err(mut why) => {
            let reason = reason_of(rt, path, &mut why);
            let_go(rt, path, found, why);
            Err(ProgramFault::DatabaseRefused(reason))
        }
    }
}

/// What a call comes to that has done its work and has closed its file: the fault of the work comes first.
pub(crate) fn first_fault(
    work: Result<(), ProgramFault>,
    closed: Result<(), ProgramFault>,
) -> Result<(), ProgramFault>
    ensures work { IfErr work (λ fault. result ≡ Err fault) }
    ensures closed { IfOk work (λ _. result ≡ closed) }
{
    match work {
        Ok(()) => closed,
        Err(fault) => {
            drop(closed);
            Err(fault)
        }
    }
}

/// Whether a word names the database in memory.
pub(crate) fn names_memory(database: &str) -> bool
    ensures { (result ≡ true) ↔ (database.now ≡ codes ":memory:") }
{
    database == ":memory:"
}
