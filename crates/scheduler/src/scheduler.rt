//! The scheduler: a store, and the attempts that were begun.
ghost use Rattle.std.specs.Prelude.{◌≡◌, ◌<◌, ◌^◌, [], map, IfErr, IfSome};
ghost use Rattle.sqlite.specs.Held.{state};
ghost use Rattle.sqlite.specs.State.{HasCleanDisk};
ghost use Rattle.journal_model.specs.Attempt.{due};
ghost use Rattle.journal_model.specs.Event as model;
ghost use Rattle.journal_model.specs.Journal.{is_open, object_state};
ghost use Rattle.due_laws.specs.NextMoment.{IsNextMoment};
ghost use Rattle.store_model.specs.KeptRecords.{state_row};
ghost use Rattle.store_model.specs.Progress.{last_error_of};
ghost use Rattle.store_invocations.specs.JournalContent.{entries_told};
ghost use Rattle.store_invocations.specs.InvocationAnswers.{answer_told};
ghost use Rattle.store_reads.specs.DuePage.{due_after};
ghost use Rattle.journal_store.specs.Attempts.{BeginsSome};
ghost use Rattle.journal_store.specs.Causes.{TellsWhy, TellsWhyUnwritten, TriesEvent};
ghost use Rattle.journal_store.specs.StoreStanding.{Endures, EnduresAlways, IsQuiet, Leads, Settles};
ghost use Rattle.schedule_model.specs.Schedule.{BeginDoes, Applies, Scheduled};
ghost use Rattle.schedule_model.specs.ArgumentBounds.{FitsEvent};
ghost use Rattle.scheduler.specs.Begins.{LeadsUnheld, begun_reply};
ghost use Rattle.scheduler.specs.Loop.{TurnsAsking};
ghost use Rattle.scheduler.specs.SchedulerCalls.{AppliesWith, HasBegun, IsScheduled, IsTakenUp, IsEventWritten, OutlastsEvent, Performs, Spares, TakesLive, TellsAlways, TellsCauseOf, TellsOf, refusal_told};

use crate::feeding::feed_in;
use crate::held::{make, move_output};
use crate::replies::{done, placed, ticked};
use bytes::ByteStr;
use journal_model::{Handler, NewInvocation, NonEmptyValue, NotificationResult, SignalKey};
use journal_store::Store;
use schedule_model::{
    Effects, Event, EventRefusal, HeldAttempt, HeldAttempts, Reply, RunOutcome, Turn,
    invocation_fits, result_fits, signal_fits, tells_mismatch,
};
use sqlite::Alter;
use std::alloc::Global;
use store_calls::BegunAttempt;
use store_invocations::RecordedEntry;
use store_refusals::Refusal;
use store_tables::{LastError, StateRow};
use vm_types::VMOptions;

/// A store, and the attempts that were begun and not let go of: one that was stopped or overtaken can still make turns, and its bytes are
/// refused.
#[derive(Drop)]
pub struct Scheduler<H, S: Alter> {
    pub alloc: Global,
    pub store: Store<S>,
    pub options: VMOptions,
    pub held: HeldAttempts<H>,
}

/// What a begin has come to.
#[derive(Clone, Copy)]
pub(crate) enum Begun {
    /// The attempt has this number, and is held.
    Held(u32),
    /// It has this number. There was no memory for it, and nobody holds it.
    Unheld(u32),
    /// The store has refused it, for this.
    Refused(Refusal),
}

// What is answered of that.
fn begun_reply(begun: Begun) -> Reply
    ensures { result ≡ begun_reply begun }
{
    match begun {
        Begun::Held(number) => Reply::Begun(number),
        Begun::Unheld(_) => Reply::Refused(EventRefusal::Store(Refusal::OutOfMemory)),
        Begun::Refused(refusal) => Reply::Refused(EventRefusal::Store(refusal)),
    }
}

impl<H: Handler + Drop, S: Alter + Drop> Scheduler<H, S> {
    pub fn new(alloc: Global, store: Store<S>, options: VMOptions) -> Scheduler<H, S>
        ensures store { result.store ≡ store }
        ensures options { result.options ≡ options }
        ensures held { result.held ≡ [] }
    {
        Scheduler {
            alloc,
            store,
            options,
            held: HeldAttempts::new(alloc),
        }
    }

    /// An invocation is made.
    fn invoke(&mut self, new: NewInvocation) -> Reply
        ensures { Performs S.Store H.next_call (Event.Invoke new) result self.old self.new }
    {
        invocation_fits(&new);
        done(self.store.invoke(new))
    }

    /// A request's completion has this result.
    fn complete(
        &mut self,
        invocation: &ByteStr,
        completion: u32,
        value: NotificationResult,
    ) -> Reply
        ensures { Performs S.Store H.next_call (Event.Result invocation.now completion value) result self.old self.new }
    {
        result_fits(completion, &value);
        placed(self.store.result(invocation, completion, value))
    }

    /// A signal comes.
    fn signal(&mut self, invocation: &ByteStr, key: SignalKey, value: NotificationResult) -> Reply
        ensures { Performs S.Store H.next_call (Event.Signal invocation.now key value) result self.old self.new }
    {
        signal_fits(&key, &value);
        placed(self.store.signal(invocation, key, value))
    }

    /// An invocation is cancelled.
    fn cancel(&mut self, invocation: &ByteStr) -> Reply
        ensures { Performs S.Store H.next_call (Event.Cancel invocation.now) result self.old self.new }
    {
        placed(self.store.cancel(invocation))
    }

    /// The sleeps that are due are over.
    pub(crate) fn tick(&mut self, now: u64) -> Reply
        ensures { Performs S.Store H.next_call (Event.Tick now) result self.old self.new }
    {
        ticked(self.store.tick(now))
    }

    /// An attempt is stopped.
    pub(crate) fn stop(&mut self, invocation: &ByteStr, number: u32) -> Reply
        ensures { Performs S.Store H.next_call (Event.Stop invocation.now number) result self.old self.new }
    {
        match self.held.get_mut(invocation, number) {
            None => Reply::Refused(EventRefusal::AttemptNotHeld),
            Some(_) => done(self.store.stop(invocation, number)),
        }
    }

    /// An attempt is begun, and held. Where memory is refused for that, it stays begun, and nobody holds it.
    pub(crate) fn begin_numbered(&mut self, invocation: ByteStr, handler: H, now: u64) -> Begun
        ensures does { Leads S.Store (λ s t. BeginDoes self.old.options invocation handler now s self.old.held (begun_reply result) t self.new.held) self.old.store self.new.store }
        ensures options { self.new.options ≡ self.old.options }
        ensures settled { HasBegun (begun_reply result) → Settles S.Store (λ s t. BeginDoes self.old.options invocation handler now s self.old.held (begun_reply result) t self.new.held) self.old.store self.new.store }
        ensures moment { now < 2 ^ 64 }
        ensures cause { IfSome (refusal_told (begun_reply result)) (TellsWhyUnwritten S.Store self.old.store self.new.store (TriesEvent (model.Event.Begin invocation now))) }
        ensures crash { EnduresAlways S.Store (BeginsSome invocation now) self.old.store self.new.store }
        // Of what was begun and is not held the number is known, and of what was refused that nothing was begun.
        ensures unheld { LeadsUnheld S.Store invocation now result self.old self.new }
    {
        let begun = match self.store.begin(&invocation, now) {
            Ok(begun) => begun,
            Err(refusal) => return Begun::Refused(refusal),
        };
        let BegunAttempt {
            number,
            version,
            start,
        } = begun;
        let Some(attempt) = make(self.alloc, version, self.options, handler, start) else {
            return Begun::Unheld(number);
        };
        match self.held.push(HeldAttempt {
            invocation,
            number,
            attempt,
        }) {
            Ok(()) => Begun::Held(number),
            Err(refused) => {
                drop(refused);
                Begun::Unheld(number)
            }
        }
    }

    /// The same, as an event.
    fn begin(&mut self, invocation: ByteStr, handler: H, now: u64) -> Reply
        ensures { Performs S.Store H.next_call (Event.Begin invocation handler now) result self.old self.new }
    {
        begun_reply(self.begin_numbered(invocation, handler, now))
    }

    /// Bytes of its input go to an attempt.
    pub(crate) fn feed(&mut self, invocation: &ByteStr, number: u32, count: usize) -> Reply
        ensures { Performs S.Store H.next_call (Event.Feed invocation.now number count) result self.old self.new }
    {
        match self.held.get_mut(invocation, number) {
            None => Reply::Refused(EventRefusal::AttemptNotHeld),
            Some(attempt) => feed_in(&mut self.store, invocation, number, attempt, count),
        }
    }

    /// The input of an attempt is closed.
    pub(crate) fn close(&mut self, invocation: &ByteStr, number: u32) -> Reply
        ensures { Performs S.Store H.next_call (Event.Close invocation.now number) result self.old self.new }
    {
        let Some(attempt) = self.held.get_mut(invocation, number) else {
            return Reply::Refused(EventRefusal::AttemptNotHeld);
        };
        match self.store.close_input(invocation, number) {
            Ok(()) => {
                attempt.close_input();
                Reply::Done
            }
            Err(refusal) => Reply::Refused(EventRefusal::Store(refusal)),
        }
    }

    /// An attempt makes a turn, unless the outcome tells a mismatch.
    pub(crate) fn turn(&mut self, invocation: &ByteStr, number: u32, outcome: RunOutcome) -> Reply
        ensures { Performs S.Store H.next_call (Event.Turn invocation.now number outcome) result self.old self.new }
    {
        if tells_mismatch(&outcome) {
            drop(outcome);
            return Reply::Refused(EventRefusal::JournalMismatchOutcome);
        }
        match self.held.get_mut(invocation, number) {
            None => {
                drop(outcome);
                Reply::Refused(EventRefusal::AttemptNotHeld)
            }
            Some(attempt) => Reply::Turned(attempt.turn(outcome)),
        }
    }

    /// An attempt makes a turn, and the body for which it asks is executed then.
    pub(crate) fn turn_with<E: Effects>(
        &mut self,
        invocation: &ByteStr,
        number: u32,
        effects: &mut E,
    ) -> Result<Turn, EventRefusal>
        ensures { TurnsAsking S.Store E.executes H.next_call invocation.now number result self.old effects.old self.new effects.new }
    {
        match self.held.get_mut(invocation, number) {
            None => Err(EventRefusal::AttemptNotHeld),
            Some(attempt) => Ok(attempt.turn_with(invocation, effects)),
        }
    }

    /// Bytes of its output go from an attempt to the store.
    pub(crate) fn move_output(&mut self, invocation: &ByteStr, number: u32, count: usize) -> Reply
        ensures { Performs S.Store H.next_call (Event.Move invocation.now number count) result self.old self.new }
    {
        match self.held.get_mut(invocation, number) {
            None => Reply::Refused(EventRefusal::AttemptNotHeld),
            Some(attempt) => move_output(&mut self.store, invocation, number, attempt, count),
        }
    }

    /// Does what an event says.
    pub(crate) fn perform(&mut self, event: Event<H>) -> Reply
        ensures { Performs S.Store H.next_call event result self.old self.new }
    {
        match event {
            Event::Invoke(new) => self.invoke(new),
            Event::Result {
                invocation,
                completion,
                value,
            } => self.complete(&invocation, completion, value),
            Event::Signal {
                invocation,
                signal,
                value,
            } => self.signal(&invocation, signal, value),
            Event::Cancel { invocation } => self.cancel(&invocation),
            Event::Tick(now) => self.tick(now),
            Event::Begin {
                invocation,
                handler,
                now,
            } => self.begin(invocation, handler, now),
            Event::Feed {
                invocation,
                attempt,
                count,
            } => self.feed(&invocation, attempt, count),
            Event::Close {
                invocation,
                attempt,
            } => self.close(&invocation, attempt),
            Event::Turn {
                invocation,
                attempt,
                outcome,
            } => self.turn(&invocation, attempt, outcome),
            Event::Move {
                invocation,
                attempt,
                count,
            } => self.move_output(&invocation, attempt, count),
            Event::Stop {
                invocation,
                attempt,
            } => self.stop(&invocation, attempt),
        }
    }

    /// One event. A refused one is used up too.
    pub fn apply(&mut self, event: Event<H>) -> Reply
        ensures does { HasCleanDisk (state S.Store self.new.store.connection) → (old : Scheduled H) → IsScheduled S.Store old self.old → (new : Scheduled H) × IsScheduled S.Store new self.new × Applies H.next_call self.old.options event result old new }
        ensures options { self.new.options ≡ self.old.options }
        // What is answered as written lasts: whatever a crash leaves from then on, the tables keep it.
        ensures settled { IsEventWritten event result → HasCleanDisk (state S.Store self.new.store.connection) → (old : Scheduled H) → IsScheduled S.Store old self.old → (new : Scheduled H) × IsScheduled S.Store new self.new × Applies H.next_call self.old.options event result old new × OutlastsEvent event result new.standing (state S.Store self.new.store.connection) }
        ensures fits { FitsEvent event }
        // A stop of a live attempt that is held is never refused, nor are its bytes but for want of memory, whatever the store stands for.
        ensures live { TakesLive event result self.old.store }
        // Where it is refused before the store is asked (X1, X2), all is as it was; a turn leaves the store as it was; and bytes that are handed
        // out, an input that is closed and a stop commit nothing: this too whatever the store stands for, and whatever the disk returned.
        ensures spares { Spares S.Store event result self.old self.new }
        // Where the database refused a statement, the refusal tells its own cause, or for what SQL's rules refuse a statement of this event:
        // of a move, of the frame that was tried among its bytes. A turn is refused by no store.
        ensures cause { IfSome (refusal_told result) (TellsCauseOf S.Store event self.old.held result self.old.store self.new.store) }
        ensures crash { Endures S.Store (AppliesWith H.next_call self.old.options event self.old.held) self.old.store self.new.store }
    {
        self.perform(event)
    }

    /// One turn of an attempt: what `apply` does for `Event::Turn`, for a caller that keeps the id.
    pub fn take_turn(&mut self, invocation: &ByteStr, attempt: u32, outcome: RunOutcome) -> Reply
        ensures does { HasCleanDisk (state S.Store self.new.store.connection) → (old : Scheduled H) → IsScheduled S.Store old self.old → (new : Scheduled H) × IsScheduled S.Store new self.new × Applies H.next_call self.old.options (Event.Turn invocation.now attempt outcome) result old new }
        ensures spares { Spares S.Store (Event.Turn invocation.now attempt outcome) result self.old self.new }
        ensures store { self.new.store ≡ self.old.store }
        ensures options { self.new.options ≡ self.old.options }
    {
        self.turn(invocation, attempt, outcome)
    }

    /// The recorded requests and arrivals of an invocation, by place.
    pub fn entries(&mut self, id: &ByteStr) -> Result<Vec<RecordedEntry>, Refusal>
        ensures told { TellsOf S.Store id.now (λ events entries. entries.items ≡ entries_told events id.now) result self.old self.new }
        ensures kept { self.new ≡ record self.old { store = self.new.store } }
        ensures cause { IfErr result (TellsWhy S.Store self.old.store self.new.store) }
        ensures crash { IsQuiet S.Store self.old.store self.new.store }
    {
        self.store.entries(id)
    }

    /// What a closed invocation answers.
    pub fn answer(&mut self, id: &ByteStr) -> Result<Option<NonEmptyValue>, Refusal>
        ensures told { TellsOf S.Store id.now (λ events answer. answer ≡ answer_told events id.now) result self.old self.new }
        ensures kept { self.new ≡ record self.old { store = self.new.store } }
        ensures cause { IfErr result (TellsWhy S.Store self.old.store self.new.store) }
        ensures crash { IsQuiet S.Store self.old.store self.new.store }
    {
        self.store.answer(id)
    }

    /// The last error that an attempt of an invocation told.
    pub fn failure(&mut self, id: &ByteStr) -> Result<Option<LastError>, Refusal>
        ensures told { TellsOf S.Store id.now (λ events error. error ≡ last_error_of events id.now) result self.old self.new }
        ensures kept { self.new ≡ record self.old { store = self.new.store } }
        ensures cause { IfErr result (TellsWhy S.Store self.old.store self.new.store) }
        ensures crash { IsQuiet S.Store self.old.store self.new.store }
    {
        self.store.failure(id)
    }

    /// Whether an invocation is open.
    pub fn is_open(&mut self, id: &ByteStr) -> Result<bool, Refusal>
        ensures told { TellsOf S.Store id.now (λ events answer. answer ≡ is_open events id.now) result self.old self.new }
        ensures kept { self.new ≡ record self.old { store = self.new.store } }
        ensures cause { IfErr result (TellsWhy S.Store self.old.store self.new.store) }
        ensures crash { IsQuiet S.Store self.old.store self.new.store }
    {
        self.store.is_open(id)
    }

    /// The values of an object's state, by ascending keys: what the requests of its invocations, closed ones too, have made of it.
    pub fn state(&mut self, object: &ByteStr) -> Result<Vec<StateRow>, Refusal>
        ensures told { TellsAlways S.Store (λ events states. states.items ≡ map (state_row object.now) (object_state events object.now)) result self.old self.new }
        ensures kept { self.new ≡ record self.old { store = self.new.store } }
        ensures cause { IfErr result (TellsWhy S.Store self.old.store self.new.store) }
        ensures crash { IsQuiet S.Store self.old.store self.new.store }
    {
        self.store.state(object)
    }

    /// The invocations that are due, by id: of each an attempt that is begun now may go on. After a store was opened these are also those
    /// whose attempts were live when it was left.
    pub fn due(&mut self) -> Result<Vec<ByteStr>, Refusal>
        ensures told { TellsAlways S.Store (λ events ids. ids.items ≡ due events) result self.old self.new }
        ensures kept { self.new ≡ record self.old { store = self.new.store } }
        ensures cause { IfErr result (TellsWhy S.Store self.old.store self.new.store) }
        ensures crash { IsQuiet S.Store self.old.store self.new.store }
    {
        self.store.due()
    }

    /// The first so many of those that are due whose ids are above one, by id: behind the empty id the first of all.
    pub fn due_after(&mut self, after: &ByteStr, most: usize) -> Result<Vec<ByteStr>, Refusal>
        ensures told { TellsAlways S.Store (λ events ids. ids.items ≡ due_after events after.now most) result self.old self.new }
        ensures kept { self.new ≡ record self.old { store = self.new.store } }
        ensures cause { IfErr result (TellsWhy S.Store self.old.store self.new.store) }
        ensures crash { IsQuiet S.Store self.old.store self.new.store }
    {
        self.store.due_after(after, most)
    }

    /// The first moment, in milliseconds, at which a tick ends a sleep, if there is one: until then no tick brings anything.
    pub fn next_moment(&mut self) -> Result<Option<u64>, Refusal>
        ensures told { TellsAlways S.Store IsNextMoment result self.old self.new }
        ensures kept { self.new ≡ record self.old { store = self.new.store } }
        ensures cause { IfErr result (TellsWhy S.Store self.old.store self.new.store) }
        ensures crash { IsQuiet S.Store self.old.store self.new.store }
    {
        self.store.next_moment()
    }

    /// The store, whose attempts nobody holds any more.
    pub fn into_store(self) -> Store<S>
        ensures { result ≡ self.store }
    {
        let Scheduler { store, .. } = self;
        store
    }
}
