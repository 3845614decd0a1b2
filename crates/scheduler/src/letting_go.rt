//! How a scheduler lets go of attempts, and how invocations are forgotten.
ghost use Rattle.std.specs.Prelude.{◌≡◌, ◌≢◌, [], IfErr, OnErr, OnOk};
ghost use Rattle.store_calls.specs.Forgetting.{Forgets, LeavesOthers};
ghost use Rattle.journal_store.specs.Causes.{TellsWhyUnforgotten};
ghost use Rattle.journal_store.specs.StoreStanding.{EnduresAlways, IsQuiet, Leads, Settles};
ghost use Rattle.journal_store.specs.Words.{AreTablesKept, state};
ghost use Rattle.scheduler.specs.LettingGo.{ForgetsClosed, LetsGoOf, held_behind};

use crate::scheduler::Scheduler;
use bytes::ByteStr;
use journal_model::Handler;
use sqlite::Alter;
use std::alloc::AllocError;
use std::slice::from_ref;
use store_refusals::Refusal;

impl<H: Handler + Drop, S: Alter + Drop> Scheduler<H, S> {
    /// Lets go of an attempt: of one that is over, by itself, by a stop or since another one was begun, memory has its last answer or all
    /// of it until then. A live one is stopped first. Each event of it is X2 from then on, as of any that is not held.
    ///
    /// Where there is no memory for that, all is as it was.
    pub fn let_go_of(&mut self, invocation: &ByteStr, attempt: u32) -> Result<(), AllocError>
        ensures ok { OnOk result (LetsGoOf S.Store invocation.now attempt self.old self.new) }
        ensures err { OnErr result (self.new ≡ self.old) }
        ensures crash { IsQuiet S.Store self.old.store self.new.store }
    {
        let ids = from_ref(invocation);
        let room = self.held.room_without(ids, Some(attempt))?;
        let _ = self.store.stop(invocation, attempt);
        self.held.let_go(ids, Some(attempt), room);
        Ok(())
    }

    /// Forgets closed invocations, all of them or none, as `Store::forget` does, and lets go of their attempts: so an id that is used
    /// again is not taken for the one before. One of which an attempt is live is open, and refused S1.
    pub fn forget(&mut self, ids: &[ByteStr]) -> Result<(), Refusal>
        ensures does { Leads S.Store (ForgetsClosed ids.now result) self.old.store self.new.store }
        ensures others { self.new ≡ record self.old { store = self.new.store; held = held_behind ids.now result self.old.held } }
        ensures settled { ids.now ≢ [] → OnOk result (Settles S.Store (Forgets ids.now result) self.old.store self.new.store) }
        ensures kept { OnErr result (AreTablesKept (state S.Store self.old.store.connection) (state S.Store self.new.store.connection)) }
        ensures cause { IfErr result (TellsWhyUnforgotten S.Store self.old.store self.new.store ids.now) }
        ensures crash { EnduresAlways S.Store (LeavesOthers ids.now) self.old.store self.new.store }
    {
        let Ok(room) = self.held.room_without(ids, None) else {
            return Err(Refusal::OutOfMemory);
        };
        match self.store.forget(ids) {
            Ok(()) => {
                self.held.let_go(ids, None, room);
                Ok(())
            }
            Err(why) => {
                drop(room);
                Err(why)
            }
        }
    }
}
