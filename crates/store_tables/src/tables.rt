//! A store's tables, as one value.

ghost use Rattle.std.specs.Prelude.{◌≡◌, false, true, IsTrue};
ghost use Rattle.sqlite.specs.Held.{state};
ghost use Rattle.store_tables.specs.Looks.{Lasts};
ghost use Rattle.store_tables.specs.Steps.{IsStore};

use sqlite::{Alter, Connection};
use std::alloc::Global;
use std::marker::Model;

/// The tables of a store, over a connection. No transaction is under way.
#[derive(Drop)]
pub struct StoreTables<S: Alter> {
    pub(crate) alloc: Global,
    pub(crate) connection: Connection<S>,
}

impl<S: Alter> Model for StoreTables<S> {
    ghost use Rattle.std.specs.Prelude.{◌≡◌, false};
    ghost use Rattle.sqlite.specs.Held.{Held, held_code, state};
    ghost use Rattle.store_tables.specs.Steps.{IsStore};

    ghost Value = { Held S };

    ghost coded = { held_code S.code };

    ghost view = { λ tables. tables.connection };

    ghost invariant = { λ tables. IsStore (state S.Store tables.connection) × ((state S.Store tables.connection).in_transaction ≡ false) };
}

impl<S: Alter> StoreTables<S> {
    /// By this allocator what is read is made.
    pub fn alloc(&self) -> Global {
        self.alloc
    }

    /// Whether no transaction is under way, as it always is: as long as the connection is open, its tables are those of a store, and a
    /// crash leaves them alone.
    pub fn is_settled(&self) -> bool
        ensures value { result ≡ true }
        ensures settled { IsTrue (state S.Store self.now).is_open → Lasts (state S.Store self.now) }
        ensures store { IsStore (state S.Store self.now) }
    {
        self.connection.is_autocommit()
    }
}

impl<S: Alter + Drop> StoreTables<S> {
    /// The tables that a connection has. `open` gives it them.
    pub fn of(alloc: Global, connection: Connection<S>) -> StoreTables<S>
        requires store { IsStore (state S.Store connection) }
        requires idle { (state S.Store connection).in_transaction ≡ false }
        ensures { result ≡ connection }
    {
        StoreTables { alloc, connection }
    }

    /// The connection.
    pub fn into_connection(self) -> Connection<S>
        ensures same { result ≡ self }
        ensures store { IsStore (state S.Store result) }
        ensures idle { (state S.Store result).in_transaction ≡ false }
    {
        let StoreTables { connection, .. } = self;
        connection
    }
}
