//! Two files in memory of which so many calls are done, and the store over them.
use crate::fault::Fault;
use journal_store::Store;
use sqlite::{Alter, Connection, FileStore, Files, Options};
use sqlite_disk::{Crash, Disk, Fuse, Memory};
use std::alloc::Global;

/// A file of which so many calls are done. Each further one fails, and changes nothing.
pub type Fused = Fuse<Memory>;

/// A store over two such files.
pub type FusedStore = Store<FileStore<Fused>>;

/// The number of calls of a file that does not stop.
pub const NEVER: u64 = u64::MAX;

/// Two files of no bytes.
pub fn new_files(alloc: Global, log: u64, db: u64) -> Files<Fused> {
    Files {
        log: Fuse::new(Memory::new(alloc), log),
        db: Fuse::new(Memory::new(alloc), db),
    }
}

fn copy(alloc: Global, file: &Fused) -> Result<Fused, Fault> {
    let mut copied = Memory::new(alloc);
    if copied.may_be_used() && copied.write_at(0, file.inner().bytes()).is_ok() {
        return Ok(Fuse::new(copied, NEVER));
    }
    drop(copied);
    Err(Fault::Memory)
}

/// The files as the end of the process leaves them: all that was written is there.
pub fn left_by_process(alloc: Global, files: &Files<Fused>) -> Result<Files<Fused>, Fault> {
    let log = copy(alloc, &files.log)?;
    match copy(alloc, &files.db) {
        Ok(db) => Ok(Files { log, db }),
        Err(fault) => {
            drop(log);
            Err(fault)
        }
    }
}

/// The files as the end of the machine may leave them: all that was not synced is lost.
pub fn left_by_machine(files: Files<Fused>) -> Files<Fused> {
    let Files { mut log, mut db } = files;
    log.crash();
    db.crash();
    Files { log, db }
}

/// Whether a file has no calls left.
fn has_stopped(file: &mut Fused) -> bool {
    if !file.may_be_used() {
        return true;
    }
    file.len().is_err()
}

/// Whether one of the files has no calls left.
pub fn have_stopped(files: &mut Files<Fused>) -> bool {
    let log = has_stopped(&mut files.log);
    let db = has_stopped(&mut files.db);
    log || db
}

fn connect(
    alloc: Global,
    files: Files<Fused>,
) -> Result<Connection<FileStore<Fused>>, Files<Fused>> {
    if !files.may_be_used() {
        return Err(files);
    }
    match Connection::open_files(alloc, files, Options::new(1)) {
        Ok(connection) => Ok(connection),
        Err((_error, left)) => Err(left.into_files()),
    }
}

/// The store over a database, or this where it is not opened.
fn open_over<S: Alter + Drop>(alloc: Global, connection: Connection<S>) -> Result<Store<S>, S> {
    match Store::open(alloc, connection) {
        Ok(store) => Ok(store),
        Err(left) => Err(left.connection.into_store()),
    }
}

/// The store over two files, or these where it is not opened.
pub fn open(alloc: Global, files: Files<Fused>) -> Result<FusedStore, Files<Fused>> {
    let connection = match connect(alloc, files) {
        Ok(connection) => connection,
        Err(files) => return Err(files),
    };
    match open_over(alloc, connection) {
        Ok(store) => Ok(store),
        Err(left) => Err(left.close()),
    }
}

/// The store over two files that do not stop.
pub fn open_again(alloc: Global, files: Files<Fused>) -> Result<FusedStore, Fault> {
    match open(alloc, files) {
        Ok(store) => Ok(store),
        Err(files) => {
            drop(files);
            Err(Fault::NotOpened)
        }
    }
}

/// A new store over files that do not stop.
pub fn open_new(alloc: Global) -> Result<FusedStore, Fault> {
    open_again(alloc, new_files(alloc, NEVER, NEVER))
}

fn left_by<S: Alter + Drop>(store: Store<S>) -> S {
    store.into_connection().into_store()
}

/// The files of a store that nobody uses any more.
pub fn leave(store: FusedStore) -> Files<Fused> {
    left_by(store).close()
}

/// Lets go of a store, and of its files.
pub fn end(store: FusedStore) {
    drop(leave(store));
}

/// The store over copies of its files, which do not stop. A file in memory may not be used any more once its sync was refused memory.
pub fn open_copies(alloc: Global, store: FusedStore) -> Result<FusedStore, Fault> {
    let left = leave(store);
    let copied = left_by_process(alloc, &left);
    drop(left);
    open_again(alloc, copied?)
}
