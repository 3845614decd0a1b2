// The store, and what it is opened from.
ghost use Rattle.std.specs.Prelude.{◌≡◌};

use sqlite::{Alter, Connection};
use std::alloc::Global;
use std::marker::Model;
use store_live::LiveAttempts;
use store_tables::StoreTables;

/// What is recorded of invocations, and the attempts that are live.
#[derive(Drop)]
pub struct Store<S: Alter> {
    pub(crate) tables: StoreTables<S>,
    pub(crate) live: LiveAttempts,
}

impl<S: Alter> Model for Store<S> {
    ghost use Rattle.journal_store.specs.StoreView.{Stored, stored_code};

    ghost Value = { Stored S };

    ghost coded = { stored_code S.code };

    ghost view = { λ store. record { connection = store.tables; live = store.live } };
}

impl<S: Alter + Drop> Store<S> {
    /// By this allocator answers are made.
    pub(crate) fn alloc(&self) -> Global {
        self.tables.alloc()
    }

    /// The connection. All attempts are over.
    pub fn into_connection(self) -> Connection<S>
        ensures { result ≡ self.connection }
    {
        let Store { tables, .. } = self;
        tables.into_connection()
    }
}
