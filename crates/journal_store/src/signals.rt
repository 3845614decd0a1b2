// What comes from outside without a request: signals, and the cancellation.
ghost use Rattle.std.specs.Prelude.{OnErr, OnOk, IfErr};
ghost use Rattle.journal_model.specs.Event.{Event};
ghost use Rattle.store_calls.specs.AbstractStore.{Adds};
ghost use Rattle.store_calls.specs.Calls.{Cancels, Signals};
ghost use Rattle.journal_store.specs.StoreStanding.{EnduresAlways, KeepsOutputs, Leads, Settles};
ghost use Rattle.journal_store.specs.Words.{state, AreTablesKept};
ghost use Rattle.journal_store.specs.Causes.{TellsWhyUnwritten, TriesEvent};

use crate::store::Store;
use bytes::ByteStr;
use journal_model::{NotificationResult, SignalKey};
use sqlite::Alter;
use store_arrivals::{prepare_cancel, prepare_signal};
use store_refusals::Refusal;

impl<S: Alter + Drop> Store<S> {
    /// A signal: void, a value or a failure. Answers the place that it takes in the journal.
    pub fn signal(
        &mut self,
        id: &ByteStr,
        key: SignalKey,
        brought: NotificationResult,
    ) -> Result<u32, Refusal>
        ensures does { Leads S.Store (Signals id.now key brought result) self.old self.new }
        ensures waits { KeepsOutputs self.old.live.attempts self.new.live.attempts }
        ensures settled { OnOk result (Settles S.Store (Signals id.now key brought result) self.old self.new) }
        ensures kept { OnErr result (AreTablesKept (state S.Store self.old.connection) (state S.Store self.new.connection)) }
        ensures cause { IfErr result (TellsWhyUnwritten S.Store self.old self.new (TriesEvent (Event.Signal id.now key brought))) }
        ensures crash { EnduresAlways S.Store (Adds (Event.Signal id.now key brought)) self.old self.new }
    {
        match prepare_signal(&mut self.tables, id, key, brought) {
            Ok(made) => self.record_arrival(made),
            Err(why) => Err(why),
        }
    }

    /// The cancellation of an invocation: its signal 1, void. It may come any number of times. Answers the place that it takes in the
    /// journal.
    pub fn cancel(&mut self, id: &ByteStr) -> Result<u32, Refusal>
        ensures does { Leads S.Store (Cancels id.now result) self.old self.new }
        ensures waits { KeepsOutputs self.old.live.attempts self.new.live.attempts }
        ensures settled { OnOk result (Settles S.Store (Cancels id.now result) self.old self.new) }
        ensures kept { OnErr result (AreTablesKept (state S.Store self.old.connection) (state S.Store self.new.connection)) }
        ensures cause { IfErr result (TellsWhyUnwritten S.Store self.old self.new (TriesEvent (Event.Cancel id.now))) }
        ensures crash { EnduresAlways S.Store (Adds (Event.Cancel id.now)) self.old self.new }
    {
        match prepare_cancel(&mut self.tables, id) {
            Ok(made) => self.record_arrival(made),
            Err(why) => Err(why),
        }
    }
}
