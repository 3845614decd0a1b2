//! A database in memory, and the store over it while that is open. What is left of one in the end is its own store of pages: a store and a
//! connection are taken apart by their libraries, so that nothing is proved here of how each of their parts is let go of.
use crate::answers::{print_done, print_refusal};
use crate::fault::Fault;
use journal_store::{NotOpened, Store};
use sqlite::{Connection, MemStore};
use std::alloc::Global;

/// Lets go of a connection.
pub fn leave(connection: Option<Connection<MemStore>>) {
    if let Some(connection) = connection {
        drop(connection.into_store());
    }
}

/// Lets go of a store.
pub fn close(store: Option<Store<MemStore>>) {
    if let Some(store) = store {
        leave(Some(store.into_connection()));
    }
}

/// A store of no invocation.
pub fn open_memory(alloc: Global) -> Result<Store<MemStore>, Fault> {
    let Ok(connection) = Connection::open_in_memory(alloc) else {
        return Err(Fault::Memory);
    };
    match Store::open(alloc, connection) {
        Ok(store) => Ok(store),
        Err(left) => {
            leave(Some(left.connection));
            Err(Fault::Memory)
        }
    }
}

/// A database in memory: the store that is open over it, or its connection.
pub struct Database {
    alloc: Global,
    connection: Option<Connection<MemStore>>,
    store: Option<Store<MemStore>>,
}

/// An empty database.
pub fn empty(alloc: Global) -> Result<Database, Fault> {
    match Connection::open_in_memory(alloc) {
        Ok(connection) => Ok(Database {
            alloc,
            connection: Some(connection),
            store: None,
        }),
        Err(_) => Err(Fault::Memory),
    }
}

impl Database {
    /// Lets go of it.
    pub fn leave(self) {
        let Database {
            alloc: _alloc,
            connection,
            store,
        } = self;
        leave(connection);
        close(store);
    }

    /// The store, which has to be open.
    pub fn store(&mut self) -> Result<&mut Store<MemStore>, Fault> {
        self.store.as_mut().ok_or(Fault::NotUnderstood)
    }

    /// Begins again with an empty database.
    pub fn renew<R: Print>(&mut self, rt: &R) -> Result<(), Fault> {
        let Ok(connection) = Connection::open_in_memory(self.alloc) else {
            return Err(Fault::Memory);
        };
        close(self.store.take());
        leave(self.connection.replace(connection));
        print_done(rt, Ok(()))
    }

    /// Opens a store over the connection.
    pub fn open<R: Print>(&mut self, rt: &R) -> Result<(), Fault> {
        let Some(connection) = self.connection.take() else {
            return Err(Fault::NotUnderstood);
        };
        match Store::open(self.alloc, connection) {
            Ok(store) => {
                close(self.store.replace(store));
                print_done(rt, Ok(()))
            }
            Err(
                NotOpened {
                    connection,
                    refusal,
                },
            ) => {
                leave(self.connection.replace(connection));
                print_refusal(rt, refusal)
            }
        }
    }

    /// Takes the connection out of the store.
    pub fn close<R: Print>(&mut self, rt: &R) -> Result<(), Fault> {
        let Some(store) = self.store.take() else {
            return Err(Fault::NotUnderstood);
        };
        leave(self.connection.replace(store.into_connection()));
        print_done(rt, Ok(()))
    }

    /// Carries a statement out on the connection. Answers how many rows it changed.
    pub fn execute<R: Print>(&mut self, rt: &R, statement: &str) -> Result<(), Fault> {
        let Some(connection) = self.connection.as_mut() else {
            return Err(Fault::NotUnderstood);
        };
        match connection.execute(statement, &[]) {
            Ok(rows) => Ok(println!(rt; "rows {rows}")?),
            Err(cause) => Ok(println!(rt; "refused {cause:?}")?),
        }
    }

    /// From now on no statement takes more steps than these.
    pub fn limit<R: Print>(&mut self, rt: &R, steps: Option<u64>) -> Result<(), Fault> {
        let Some(connection) = self.connection.as_mut() else {
            return Err(Fault::NotUnderstood);
        };
        connection.set_step_limit(steps);
        print_done(rt, Ok(()))
    }
}
