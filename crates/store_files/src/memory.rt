// A store whose database lies in memory.
ghost use Rattle.std.specs.Prelude.{◌≡◌, [], IsTrue, IfOk, IfErr};
ghost use Rattle.sqlite_store.specs.Unopened.{wanted_by, AreUsable};
ghost use Rattle.sqlite.specs.State.{HasCleanDisk};
ghost use Rattle.sqlite.specs.Files.{file_state};
ghost use Rattle.journal_store.specs.StoreStanding.{Stands};
ghost use Rattle.store_refusals.specs.RefusalConditions.{is_circumstance};
ghost use Rattle.store_refusals.specs.Causes.{IsUnasked};
ghost use Rattle.store_files.specs.MadeDatabase.{IsMadeEmpty, IsEmptyAndIdle, TellsUnmade};

use crate::make::PAGE_BYTES;
use journal_store::Store;
use memory_disk::MemoryFile;
use sqlite::{Connection, FileStore, Files, Options};
use sqlite_pager::{PageSize, Pager};
use sqlite_store::Unopened;
use std::alloc::Global;
use store_refusals::Refusal;

/// What the salts of the log are made from. Nobody else reads it.
const SEED: u64 = 1;

/// Two files of no bytes, over which no database was made yet. Such files fail for want of memory alone.
fn new_files(alloc: Global) -> Result<Unopened<MemoryFile>, Refusal>
    ensures usable { IfOk result AreUsable }
    ensures none { IfOk result (λ files. wanted_by files ≡ []) }
    ensures err { IfErr result (λ why. IsTrue (is_circumstance why)) }
    ensures unasked { IfErr result IsUnasked }
{
    let files = Files {
        log: MemoryFile::new(alloc),
        db: MemoryFile::new(alloc),
    };
    let size = PageSize::new(PAGE_BYTES).unwrap();
    let pager = match Pager::new(alloc, files, size, Options::new(SEED)) {
        Ok(pager) => pager,
        Err(left) => {
            drop(left);
            return Err(Refusal::OutOfMemory);
        }
    };
    match Unopened::with_sums(alloc, pager, &[], false) {
        Ok(files) => Ok(files),
        Err(left) => {
            drop(left);
            Err(Refusal::OutOfMemory)
        }
    }
}

/// A database of no table in two files that lie in memory.
fn new_database(alloc: Global) -> Result<FileStore<MemoryFile>, Refusal>
    ensures made { IfOk result IsMadeEmpty }
    ensures err { IfErr result (λ why. IsTrue (is_circumstance why)) }
    ensures unasked { IfErr result IsUnasked }
{
    let files = new_files(alloc)?;
    match files.create() {
        Ok(database) => Ok(database),
        Err((_error, left)) => {
            drop(left);
            Err(Refusal::OutOfMemory)
        }
    }
}

/// A connection to such a database.
fn connect(alloc: Global) -> Result<Connection<FileStore<MemoryFile>>, Refusal>
    ensures ok { IfOk result (λ connection. IsEmptyAndIdle (file_state connection)) }
    ensures err { IfErr result (λ why. IsTrue (is_circumstance why)) }
    ensures cause { IfErr result TellsUnmade }
{
    let database = new_database(alloc)?;
    match Connection::over(alloc, database) {
        Ok(connection) => Ok(connection),
        Err((error, left)) => {
            drop(left);
            Err(Refusal::StatementRefused(error))
        }
    }
}

/// The store of no events, in a database that lies in memory and is let go of with the store. No attempt is live.
pub fn open_in_memory(alloc: Global) -> Result<Store<FileStore<MemoryFile>>, Refusal>
    ensures none { IfOk result (λ store. Stands [] (file_state store.connection) store.live.attempts) }
    ensures clean { IfOk result (λ store. HasCleanDisk (file_state store.connection)) }
    ensures none_live { IfOk result (λ store. store.live.attempts ≡ []) }
    ensures err { IfErr result (λ why. IsTrue (is_circumstance why)) }
    ensures cause { IfErr result TellsUnmade }
{
    let connection = connect(alloc)?;
    match Store::open(alloc, connection) {
        Ok(store) => Ok(store),
        Err(left) => {
            let why = left.refusal;
            drop(left);
            Err(why)
        }
    }
}

/// A law: whatever was done to a store in memory, its disk is clean. So what is said of it while the disk returns what was written is
/// said always.
pub fn memory_stays_clean(store: &Store<FileStore<MemoryFile>>)
    ensures clean { HasCleanDisk (file_state store.now.connection) }
{
    let _ = store;
}
