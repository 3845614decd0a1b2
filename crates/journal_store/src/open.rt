// A store that is opened over a database.
ghost use Rattle.std.specs.Prelude.{◌≡◌, ◌≢◌, [], true, false, List, IfErr, IfOk, OnErr, OnOk, Err};
ghost use Rattle.journal_model.specs.Event.{Event};
ghost use Rattle.journal_model.specs.Cause.{after_open};
ghost use Rattle.sql_tables.specs.Columns.{no_schema};
ghost use Rattle.store_tables.specs.Records.{Holds, no_records};
ghost use Rattle.store_tables.specs.Steps.{IsStore};
ghost use Rattle.store_refusals.specs.declared.refusal.Refusal.TheVariants.{ForeignRow};
ghost use Rattle.store_invocations.specs.Rows.{IsStoreOf};
ghost use Rattle.journal_store.specs.OpeningConditions.{CanBeTaken, ComesBack, IsNotTaken, MakesTables};
ghost use Rattle.journal_store.specs.StoreStanding.{Stands};
ghost use Rattle.journal_store.specs.Words.{state, HasCleanDisk, Survives, AreTablesKept};
ghost use Rattle.store_refusals.specs.Causes.{TellsCause};

use crate::store::Store;
use sqlite::{Alter, Connection};
use std::alloc::Global;
use store_live::LiveAttempts;
use store_refusals::Refusal;
use store_tables::{StoreTables, open};

/// A database that was not taken.
#[derive(Drop)]
pub struct NotOpened<S: Alter> {
    /// The connection that was handed in. Its tables are as they were.
    pub connection: Connection<S>,
    /// S21 where the database is no store's or a transaction is under way.
    pub refusal: Refusal,
}

/// Gives an empty database the tables of a store, and takes a store's.
fn take_tables<S: Alter>(alloc: Global, conn: &mut Connection<S>) -> Result<(), Refusal>
    ensures fresh { HasCleanDisk (state S.Store conn.new) → OnOk result ((state S.Store conn.old).now.schema ≡ no_schema → Holds (state S.Store conn.new).now.trees no_records) }
    ensures kept { HasCleanDisk (state S.Store conn.new) → OnOk result ((state S.Store conn.old).now.schema ≢ no_schema → AreTablesKept (state S.Store conn.old) (state S.Store conn.new)) }
    ensures taken { HasCleanDisk (state S.Store conn.new) → OnOk result (CanBeTaken (state S.Store conn.old)) }
    ensures store { OnOk result (IsStore (state S.Store conn.new)) }
    ensures idle { OnOk result ((state S.Store conn.new).in_transaction ≡ false) }
    ensures refused { OnErr result (ComesBack (state S.Store conn.old) (state S.Store conn.new)) }
    ensures why { HasCleanDisk (state S.Store conn.new) → IfErr result (IsNotTaken (state S.Store conn.old)) }
    ensures cause { IfErr result (TellsCause (state S.Store conn.old) (state S.Store conn.new)) }
    ensures busy { (state S.Store conn.old).in_transaction ≡ true → (result ≡ Err ForeignRow) × (conn.new ≡ conn.old) }
    ensures crash { Survives (state S.Store conn.old) (state S.Store conn.new) (MakesTables (state S.Store conn.old)) }
{
    if !conn.is_autocommit() {
        return Err(Refusal::ForeignRow);
    }
    open(alloc, conn)?;
    Ok(())
}

impl<S: Alter + Drop> Store<S> {
    /// The store over a database: one without tables is given them, in one transaction, and a store's is taken. No attempt is live.
    pub fn open(alloc: Global, connection: Connection<S>) -> Result<Store<S>, NotOpened<S>>
        ensures fresh { IfOk result (λ store. HasCleanDisk (state S.Store store.connection) → (state S.Store connection).now.schema ≡ no_schema → Stands [] (state S.Store store.connection) store.live.attempts) }
        ensures left { IfOk result (λ store. HasCleanDisk (state S.Store store.connection) → (state S.Store connection).now.schema ≢ no_schema → (events : List Event) → IsStoreOf events (state S.Store connection) → Stands (after_open events) (state S.Store store.connection) store.live.attempts) }
        ensures taken { IfOk result (λ store. HasCleanDisk (state S.Store store.connection) → CanBeTaken (state S.Store connection)) }
        ensures none_live { IfOk result (λ store. store.live.attempts ≡ []) }
        ensures crash { IfOk result (λ store. Survives (state S.Store connection) (state S.Store store.connection) (MakesTables (state S.Store connection))) }
        ensures refused { IfErr result (λ left. ComesBack (state S.Store connection) (state S.Store left.connection)) }
        ensures why { IfErr result (λ left. HasCleanDisk (state S.Store left.connection) → IsNotTaken (state S.Store connection) left.refusal) }
        ensures cause { IfErr result (λ left. TellsCause (state S.Store connection) (state S.Store left.connection) left.refusal) }
        ensures busy { (state S.Store connection).in_transaction ≡ true → result ≡ Err (record { connection = connection; refusal = ForeignRow }) }
    {
        let mut taken = connection;
        match take_tables(alloc, &mut taken) {
            Ok(()) => Ok(Store {
                tables: StoreTables::of(alloc, taken),
                live: LiveAttempts::new(alloc),
            }),
            Err(refusal) => Err(NotOpened {
                connection: taken,
                refusal,
            }),
        }
    }
}
