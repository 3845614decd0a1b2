//! How an invocation is gone on with: one attempt, from its begin until it is over, with each effect executed when it is asked for.
ghost use Rattle.std.specs.Prelude.{◌≡◌, [], false, suc, true};
ghost use Rattle.schedule_model.specs.declared.event.Event.TheVariants as event;
ghost use Rattle.scheduler.specs.Loop.{all_bytes, Continues, GoesAlone, GoesOn, GoesOnBy, IsAttempt, IsFed, IsFedBehindBody, IsFedMore, IsWaiting, MakesTurns, PerformsOr, PerformsSome, Stopping, Then};
ghost use Rattle.scheduler.specs.Outcomes.{brings_none};

use crate::outcome::{Outcome, brings_none, no_memory, refused};
use crate::scheduler::{Begun, Scheduler};
use bytes::ByteStr;
use journal_model::Handler;
use schedule_model::{Effects, EventRefusal, HeldAttempts, Turn};
use sqlite::Alter;
use std::mem::replace;

impl<H: Handler + Drop, S: Alter + Drop> Scheduler<H, S> {
    /// An attempt is fed all of its input that there is. It tells whether there was none.
    fn feed_all(&mut self, id: &ByteStr, attempt: u32) -> Result<bool, EventRefusal>
        ensures { PerformsOr S.Store H.next_call (event.Feed id.now attempt all_bytes) (λ answer is_none. is_none ≡ brings_none answer) result self.old self.new }
    {
        let reply = self.feed(id, attempt, usize::MAX);
        let is_none = brings_none(&reply);
        match refused(reply) {
            Some(why) => Err(why),
            None => Ok(is_none),
        }
    }

    /// All that an attempt has written is moved.
    fn move_all(&mut self, id: &ByteStr, attempt: u32) -> Result<(), EventRefusal>
        ensures { PerformsOr S.Store H.next_call (event.Move id.now attempt all_bytes) (λ answer done. Unit {0}) result self.old self.new }
    {
        match refused(self.move_output(id, attempt, usize::MAX)) {
            Some(why) => Err(why),
            None => Ok(()),
        }
    }

    /// No more of its input comes to an attempt.
    fn close_now(&mut self, id: &ByteStr, attempt: u32) -> Result<(), EventRefusal>
        ensures { PerformsOr S.Store H.next_call (event.Close id.now attempt) (λ answer done. Unit {0}) result self.old self.new }
    {
        match refused(self.close(id, attempt)) {
            Some(why) => Err(why),
            None => Ok(()),
        }
    }

    // The functions from here to `step` tell whether the input of the attempt is closed, where it has another turn to make, and else what it
    // has come to. `E` is whom they ask for nothing: contracts speak of it.

    /// No more comes to an attempt that waits.
    fn close_waiting<E: Effects>(&mut self, id: &ByteStr, attempt: u32) -> Result<bool, Outcome>
        ensures { (e : E) → Continues S.Store E.executes H.next_call (λ more. Then (event.Close id.now attempt) (λ answer. MakesTurns id.now attempt more true)) (λ next more. MakesTurns id.now attempt more next) result self.old e self.new e }
    {
        match self.close_now(id, attempt) {
            Ok(()) => Ok(true),
            Err(why) => Err(Outcome::Refused(why)),
        }
    }

    /// Where nothing has come, the input of an attempt that waits is closed.
    fn go_on_fed<E: Effects>(
        &mut self,
        id: &ByteStr,
        attempt: u32,
        is_none: bool,
    ) -> Result<bool, Outcome>
        ensures { (e : E) → Continues S.Store E.executes H.next_call (λ more. IsFedMore id.now attempt (MakesTurns id.now attempt more) is_none) (λ next more. MakesTurns id.now attempt more next) result self.old e self.new e }
    {
        if is_none {
            return self.close_waiting::<E>(id, attempt);
        }
        Ok(false)
    }

    /// An attempt that waits is fed what has come since.
    fn wait<E: Effects>(
        &mut self,
        id: &ByteStr,
        attempt: u32,
        is_closed: bool,
    ) -> Result<bool, Outcome>
        ensures { (e : E) → Continues S.Store E.executes H.next_call (λ more. IsWaiting id.now attempt (MakesTurns id.now attempt more) is_closed) (λ next more. MakesTurns id.now attempt more next) result self.old e self.new e }
    {
        if is_closed {
            return Err(Outcome::Unfinished);
        }
        match self.feed_all(id, attempt) {
            Ok(is_none) => self.go_on_fed::<E>(id, attempt, is_none),
            Err(why) => Err(Outcome::Refused(why)),
        }
    }

    /// An attempt that has executed a body is fed what has come of its outcome. Its input is not closed where that is nothing: the next turn
    /// may ask for the body of another run.
    fn feed_behind_body<E: Effects>(
        &mut self,
        id: &ByteStr,
        attempt: u32,
        is_closed: bool,
    ) -> Result<bool, Outcome>
        ensures { (e : E) → Continues S.Store E.executes H.next_call (λ more. IsFedBehindBody id.now attempt (MakesTurns id.now attempt more) is_closed) (λ next more. MakesTurns id.now attempt more next) result self.old e self.new e }
    {
        if is_closed {
            return Ok(true);
        }
        match self.feed_all(id, attempt) {
            Ok(_) => Ok(false),
            Err(why) => Err(Outcome::Refused(why)),
        }
    }

    /// How an attempt goes on behind a turn, once all that it has written is moved.
    fn go_on_by<E: Effects>(
        &mut self,
        id: &ByteStr,
        attempt: u32,
        is_closed: bool,
        turn: Turn,
    ) -> Result<bool, Outcome>
        ensures { (e : E) → Continues S.Store E.executes H.next_call (λ more. GoesOnBy id.now attempt (MakesTurns id.now attempt more) is_closed turn) (λ next more. MakesTurns id.now attempt more next) result self.old e self.new e }
    {
        match turn {
            Turn::Answered => Ok(is_closed),
            Turn::RanBody => self.feed_behind_body::<E>(id, attempt, is_closed),
            Turn::Waiting => self.wait::<E>(id, attempt, is_closed),
            Turn::Suspended => Err(Outcome::Suspended),
            Turn::Ended => Err(Outcome::Ended),
            Turn::Failed(error) => Err(Outcome::Failed(error)),
        }
    }

    /// All that was written is moved, and then it goes on.
    fn move_behind<E: Effects>(
        &mut self,
        id: &ByteStr,
        attempt: u32,
        is_closed: bool,
        turn: Turn,
    ) -> Result<bool, Outcome>
        ensures { (e : E) → Continues S.Store E.executes H.next_call (λ more. Then (event.Move id.now attempt all_bytes) (λ answer. GoesOnBy id.now attempt (MakesTurns id.now attempt more) is_closed turn)) (λ next more. MakesTurns id.now attempt more next) result self.old e self.new e }
    {
        match self.move_all(id, attempt) {
            Ok(()) => self.go_on_by::<E>(id, attempt, is_closed, turn),
            Err(why) => {
                drop(turn);
                Err(Outcome::Refused(why))
            }
        }
    }

    /// A turn, and what comes behind it.
    fn step<E: Effects>(
        &mut self,
        id: &ByteStr,
        attempt: u32,
        is_closed: bool,
        effects: &mut E,
    ) -> Result<bool, Outcome>
        ensures { Continues S.Store E.executes H.next_call (λ more. MakesTurns id.now attempt (suc more) is_closed) (λ next more. MakesTurns id.now attempt more next) result self.old effects.old self.new effects.new }
    {
        match self.turn_with(id, attempt, effects) {
            Ok(turn) => self.move_behind::<E>(id, attempt, is_closed, turn),
            Err(why) => Err(Outcome::Refused(why)),
        }
    }

    /// An attempt makes its turns, so many at most.
    fn make_turns<E: Effects>(
        &mut self,
        id: &ByteStr,
        attempt: u32,
        most: u64,
        effects: &mut E,
    ) -> Outcome
        ensures { PerformsSome S.Store E.executes H.next_call (MakesTurns id.now attempt most false) result self.old effects.old self.new effects.new }
    {
        let mut left = most;
        let mut is_closed = false;
        while left > 0 {
            match self.step(id, attempt, is_closed, effects) {
                Ok(next) => is_closed = next,
                Err(told) => return told,
            }
            left -= 1;
        }
        Outcome::Unfinished
    }

    /// An attempt is fed all of its input, and makes its turns.
    fn run_attempt<E: Effects>(
        &mut self,
        id: &ByteStr,
        attempt: u32,
        most: u64,
        effects: &mut E,
    ) -> Outcome
        ensures { PerformsSome S.Store E.executes H.next_call (IsFed id.now attempt most) result self.old effects.old self.new effects.new }
    {
        match self.feed_all(id, attempt) {
            Ok(_) => self.make_turns(id, attempt, most, effects),
            Err(why) => Outcome::Refused(why),
        }
    }

    /// It does so, and is stopped, whatever came of that.
    fn run_and_stop<E: Effects>(
        &mut self,
        id: &ByteStr,
        attempt: u32,
        most: u64,
        effects: &mut E,
    ) -> Outcome
        ensures { PerformsSome S.Store E.executes H.next_call (Stopping id.now attempt (IsFed id.now attempt most)) result self.old effects.old self.new effects.new }
    {
        let told = self.run_attempt(id, attempt, most, effects);
        drop(self.stop(id, attempt));
        told
    }

    /// Goes on with an invocation, where no attempt is held. Where there is no memory for an attempt that was begun, it is not left live.
    fn go_alone<E: Effects>(
        &mut self,
        id: &ByteStr,
        handler: H,
        now: u64,
        effects: &mut E,
    ) -> Outcome
        ensures { self.old.held ≡ [] → GoesAlone S.Store E.executes H.next_call id.now (IsAttempt id.now handler now) result self.old effects.old self.new effects.new }
    {
        let Ok(invocation) = id.clone() else {
            drop(handler);
            return Outcome::Refused(no_memory());
        };
        match self.begin_numbered(invocation, handler, now) {
            Begun::Held(attempt) => self.run_and_stop(id, attempt, u64::MAX, effects),
            Begun::Unheld(attempt) => {
                let _ = self.store.stop(id, attempt);
                Outcome::Refused(no_memory())
            }
            Begun::Refused(refusal) => Outcome::Refused(EventRefusal::Store(refusal)),
        }
    }

    /// The attempts that are held, of which none is held any more.
    fn take_held(&mut self) -> HeldAttempts<H>
        ensures held { result ≡ self.old.held }
        ensures others { self.new ≡ record self.old { held = [] } }
    {
        replace(&mut self.held, HeldAttempts::new(self.alloc))
    }

    /// These are held then, and no others.
    fn put_held(&mut self, held: HeldAttempts<H>)
        ensures { self.new ≡ record self.old { held = held } }
    {
        drop(replace(&mut self.held, held));
    }

    /// Goes on with an invocation at this moment, as far as it goes: an attempt is begun with this handler, is fed all of its input and
    /// makes its turns, until it is suspended, has ended or has failed. Behind each turn all that it has written is moved, and what has
    /// come since is fed. Where it asks for the body of a run, `effects` executes it then: its request is recorded, and no outcome of it.
    ///
    /// It does what `apply` does for each of these events, and where one is refused, which it tells, no other but the last: whatever
    /// comes, the attempt is stopped then, and is not live. So the invocation is due again as soon as it can go on. Nothing is held of it.
    pub fn go_on<E: Effects>(
        &mut self,
        id: &ByteStr,
        handler: H,
        now: u64,
        effects: &mut E,
    ) -> Outcome
        ensures { GoesOn S.Store E.executes H.next_call id.now (IsAttempt id.now handler now) result self.old effects.old self.new effects.new }
    {
        let others = self.take_held();
        let told = self.go_alone(id, handler, now, effects);
        self.put_held(others);
        told
    }
}
