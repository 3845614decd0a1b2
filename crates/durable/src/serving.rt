//! `durable --serve DATABASE`: a store is served on the standard streams.

use crate::database::{close, first_fault, names_memory, open_memory, open_path};
use crate::fault::ProgramFault;
use journal_store::Store;
use sqlite::{Alter, Start, Unknown};
use std::io;
use std::io::BufReader;
use std::rt::HostRuntime;
use store_files::leave_file;
use store_server::{ServerFault, serve};

/// Answers the requests of standard input on standard output.
fn serve_store<S: Alter + Drop>(
    rt: &HostRuntime,
    store: &mut Store<S>,
) -> Result<(), ProgramFault> {
    let Ok(mut reader) = BufReader::new(rt.alloc(), rt.reader()) else {
        return Err(ProgramFault::Server(ServerFault::LineOutOfMemory));
    };
    match serve(rt.alloc(), &mut reader, &mut io::writer(rt), store) {
        Ok(()) => Ok(()),
        Err(fault) => Err(ProgramFault::Server(fault)),
    }
}

/// Serves a store in memory, which is let go of in the end.
fn serve_in_memory(rt: &HostRuntime) -> Result<(), ProgramFault> {
    let mut store = open_memory(rt.alloc())?;
    let end = serve_store(rt, &mut store);
    drop(leave_file(store));
    end
}

/// Serves the store in the file at a path, and closes the file.
fn serve_file<S: Start>(rt: &HostRuntime, path: &str, start: S) -> Result<(), ProgramFault> {
    let mut store = open_path(rt, path, start)?;
    let end = serve_store(rt, &mut store);
    let closed = close(store);
    first_fault(end, closed)
}

/// Serves the store in a database.
pub(crate) fn serve_over(rt: &HostRuntime, database: &str) -> Result<(), ProgramFault> {
    if names_memory(database) {
        serve_in_memory(rt)
    } else {
        serve_file(rt, database, Unknown)
    }
}
