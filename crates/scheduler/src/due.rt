//! How each invocation that is due is gone on with.
ghost use Rattle.std.specs.Prelude.{◌≡◌, IfOk, IfErr, OnErr};
ghost use Rattle.store_refusals.specs.declared.refusal.Refusal.TheVariants.{OutOfMemory};
ghost use Rattle.scheduler.specs.DueAttempts.{GoesOnEach, GoesOnUnlessPutOff, RunsDue, RunsNone};

use crate::host::Host;
use crate::outcome::{Outcome, no_memory, refused};
use crate::scheduler::Scheduler;
use crate::waits::Waits;
use bytes::ByteStr;
use journal_model::Handler;
use schedule_model::EventRefusal;
use sqlite::Alter;

impl<H: Handler + Drop, S: Alter + Drop> Scheduler<H, S> {
    /// Goes on with an invocation, unless it is put off.
    fn go_on_unless_put_off<W: Host<H>>(
        &mut self,
        id: &ByteStr,
        now: u64,
        host: &mut W,
        waits: &mut Waits,
    ) -> Option<Outcome>
        ensures { GoesOnUnlessPutOff S.Store W.executes W.gives H.next_call now id.now result (record { scheduler = self.old; host = host.old; waits = waits.old }) (record { scheduler = self.new; host = host.new; waits = waits.new }) }
    {
        if waits.is_put_off(id, now) {
            return None;
        }
        let handler = host.handler(id);
        let told = self.go_on(id, handler, now, host);
        waits.note(id, now, &told);
        Some(told)
    }

    /// Goes on with each of these invocations that is not put off.
    fn go_on_with_each<W: Host<H>>(
        &mut self,
        ids: Vec<ByteStr>,
        now: u64,
        host: &mut W,
        waits: &mut Waits,
    ) -> Result<Vec<(ByteStr, Outcome)>, EventRefusal>
        ensures ok { IfOk result (λ outcomes. GoesOnEach S.Store W.executes W.gives H.next_call now ids.items outcomes.items (record { scheduler = self.old; host = host.old; waits = waits.old }) (record { scheduler = self.new; host = host.new; waits = waits.new })) }
        ensures err { IfErr result (λ why. (why ≡ EventRefusal.Store OutOfMemory) × (self.new ≡ self.old)) }
        ensures others { OnErr result ((host.new ≡ host.old) × (waits.new ≡ waits.old)) }
    {
        let Ok(mut outcomes) = Vec::with_capacity(self.alloc, ids.len()) else {
            drop(ids);
            return Err(no_memory());
        };
        for id in ids {
            match self.go_on_unless_put_off(&id, now, host, waits) {
                Some(told) => outcomes.push_reserved((id, told)),
                None => drop(id),
            }
        }
        Ok(outcomes)
    }

    /// Goes on with each invocation that is due at this moment, as `go_on` does with one: first the sleeps that are over end, then each
    /// has an attempt, with the handler that the host has for it. What has failed is put off, as its error asks, and is left out until
    /// then; so is what was refused: `waits` knows of it.
    ///
    /// The outcomes come with the ids, in the order of `due`. Where the tick or the look at what is due is refused, or memory for the
    /// outcomes, nothing is gone on with.
    pub fn run_due<W: Host<H>>(
        &mut self,
        now: u64,
        host: &mut W,
        waits: &mut Waits,
    ) -> Result<Vec<(ByteStr, Outcome)>, EventRefusal>
        ensures ok { IfOk result (λ outcomes. RunsDue S.Store W.executes W.gives H.next_call now outcomes.items (record { scheduler = self.old; host = host.old; waits = waits.old }) (record { scheduler = self.new; host = host.new; waits = waits.new })) }
        ensures err { IfErr result (λ why. RunsNone S.Store H.next_call now why self.old self.new) }
        ensures others { OnErr result ((host.new ≡ host.old) × (waits.new ≡ waits.old)) }
    {
        if let Some(refusal) = refused(self.tick(now)) {
            return Err(refusal);
        }
        match self.due() {
            Ok(ids) => self.go_on_with_each(ids, now, host, waits),
            Err(refusal) => Err(EventRefusal::Store(refusal)),
        }
    }
}
