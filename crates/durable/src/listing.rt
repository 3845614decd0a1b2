//! `durable DATABASE`: the invocations that a database holds are listed.

use crate::database::{close, first_fault, names_memory, open_memory, open_path};
use crate::fault::ProgramFault;
use journal_store::Store;
use sqlite::{Alter, Start, Unknown};
use std::fs::File;
use std::io;
use std::io::ErrorKind;
use std::rt::HostRuntime;
use store_files::leave_file;
use store_server::list_store;

/// Lists the invocations of a store on standard output.
fn list_invocations<S: Alter + Drop>(
    rt: &HostRuntime,
    store: &mut Store<S>,
) -> Result<(), ProgramFault> {
    match list_store(rt.alloc(), &mut io::writer(rt), store) {
        Ok(()) => Ok(()),
        Err(fault) => Err(ProgramFault::Server(fault)),
    }
}

/// Lists those of a store in memory, which has none.
fn list_in_memory(rt: &HostRuntime) -> Result<(), ProgramFault> {
    let mut store = open_memory(rt.alloc())?;
    let end = list_invocations(rt, &mut store);
    drop(leave_file(store));
    end
}

/// Lists those of the store in the file at a path, and closes the file.
fn list_file<S: Start>(rt: &HostRuntime, path: &str, start: S) -> Result<(), ProgramFault> {
    let mut store = open_path(rt, path, start)?;
    let end = list_invocations(rt, &mut store);
    let closed = close(store);
    first_fault(end, closed)
}

/// Whether nothing of this name is there.
fn is_missing(rt: &HostRuntime, path: &str) -> bool {
    match File::open(rt, path) {
        Ok(file) => {
            drop(file);
            false
        }
        Err(error) => error.kind() == ErrorKind::NotFound,
    }
}

/// Lists the invocations of a database. No file is made where there is none.
pub(crate) fn list_over(rt: &HostRuntime, database: &str) -> Result<(), ProgramFault> {
    if names_memory(database) {
        return list_in_memory(rt);
    }
    if is_missing(rt, database) {
        return Err(ProgramFault::FileMissing);
    }
    list_file(rt, database, Unknown)
}
