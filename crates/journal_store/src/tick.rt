// A tick is recorded: the ends of all sleeps that are due, of all open invocations, in one transaction.
ghost use Rattle.std.specs.Prelude.{◌≡◌, IfOk, OnErr, OnOk, IfErr};
ghost use Rattle.journal_model.specs.Event.{Event};
ghost use Rattle.store_live.specs.Rows.{AreNoted};
ghost use Rattle.store_calls.specs.AbstractStore.{Adds};
ghost use Rattle.store_calls.specs.Calls.{Ticks};
ghost use Rattle.journal_store.specs.StoreStanding.{EnduresAlways, KeepsOutputs, Leads, Settles};
ghost use Rattle.journal_store.specs.Words.{state, AreTablesKept};
ghost use Rattle.journal_store.specs.StoreTransaction.{WritesRows};
ghost use Rattle.journal_store.specs.Causes.{TellsWhyUnwritten, TriesEvent};

use crate::events::commit_noted;
use crate::store::Store;
use sqlite::Alter;
use store_arrivals::{PreparedTick, prepare_tick};
use store_refusals::Refusal;

impl<S: Alter + Drop> Store<S> {
    /// Writes what was made ready, if anything. Live attempts read the ends from their rows.
    fn record_tick(&mut self, made: PreparedTick) -> Result<u64, Refusal>
        ensures count { IfOk result (λ count. count ≡ made.count) }
        ensures made { WritesRows S.Store made.writes.items self.old.connection self.new.connection result }
        ensures noted { OnOk result (AreNoted made.writes.items self.old.live.attempts self.new.live.attempts) }
        ensures stays { OnErr result (self.new.live ≡ self.old.live) }
    {
        let PreparedTick { writes, count } = made;
        match commit_noted(&mut self.tables, &mut self.live, writes) {
            Ok(()) => Ok(count),
            Err(why) => Err(why),
        }
    }

    /// Ends all sleeps of open invocations that are due at this moment, in milliseconds, in one transaction: in each invocation by
    /// moment, then place. Answers how many. Nothing is written where none is due.
    pub fn tick(&mut self, now: u64) -> Result<u64, Refusal>
        ensures does { Leads S.Store (Ticks now result) self.old self.new }
        ensures waits { KeepsOutputs self.old.live.attempts self.new.live.attempts }
        ensures settled { OnOk result (Settles S.Store (Ticks now result) self.old self.new) }
        ensures kept { OnErr result (AreTablesKept (state S.Store self.old.connection) (state S.Store self.new.connection)) }
        ensures cause { IfErr result (TellsWhyUnwritten S.Store self.old self.new (TriesEvent (Event.Tick now))) }
        ensures crash { EnduresAlways S.Store (Adds (Event.Tick now)) self.old self.new }
    {
        // It does nothing: its contract says that a tick of which nothing is written lasts too.
        let _settled = self.tables.is_settled();
        match prepare_tick(&mut self.tables, now) {
            Ok(made) => self.record_tick(made),
            Err(why) => Err(why),
        }
    }
}
