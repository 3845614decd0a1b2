//! Waiting for several at once.
ghost use Rattle.std.specs.Prelude.{◌≡◌, IfOk};
ghost use Rattle.straight_line.specs.Steps as steps;
ghost use Rattle.straight_line.specs.Combinators as combining;

use crate::calls::Calls;
use crate::combinators::{Combinator, future_over};
use crate::gathered::{Gathered, enough, noted, nothing, too_few};
use crate::handles::DurableFuture;
use crate::stop::{Stop, Told};
use bytes::{ByteStr, Bytes};
use journal_model::{Moment, NotificationHandle, TerminalFailure};
use sequence::Sequence;
use std::alloc::{AllocError, Global};

#[tactic(auto, unfolding(crate::specs::Combinators::timed_out))]
fn timed_out(alloc: Global) -> TerminalFailure
    ensures { result ≡ combining.timed_out }
{
    TerminalFailure {
        code: 408,
        message: ByteStr::from_static("timed out"),
        metadata: Sequence::new(alloc),
    }
}

fn handles_of(
    alloc: Global,
    outcomes: &[DurableFuture],
) -> Result<Vec<NotificationHandle>, AllocError>
    ensures { IfOk result (λ handles. handles.items ≡ combining.handles_of outcomes.now) }
{
    let mut handles = Vec::new(alloc);
    for outcome in outcomes {
        handles.push(outcome.handle())?;
    }
    Ok(handles)
}

impl<'a> Calls<'a> {
    /// Waits until several have come.
    #[tactic(auto, unfolding(crate::specs::Combinators::wait_until))]
    pub fn wait_until(&mut self, combinator: Combinator, handles: &[NotificationHandle]) -> Told<()>
        ensures { steps.Makes (combining.wait_until combinator handles.now) self.old result self.new }
    {
        let future = future_over(self.alloc(), combinator, handles)?;
        self.wait_for(future)
    }

    #[tactic(auto, using(crate::proofs::Loops::over_handles))]
    fn first_come(&mut self, handles: &[NotificationHandle]) -> Told<usize>
        ensures { steps.Makes (combining.first_come 0 handles.now) self.old result self.new }
    {
        for (place, handle) in handles.iter().enumerate() {
            if self.is_completed(*handle)? {
                return Ok(place);
            }
        }
        Ok(handles.len())
    }

    /// Waits until one of them has come, and gives the place of the first that has.
    #[tactic(auto, unfolding(crate::specs::Combinators::race))]
    pub fn race(&mut self, handles: &[NotificationHandle]) -> Told<usize>
        ensures { steps.Makes (combining.race handles.now) self.old result self.new }
    {
        self.wait_until(Combinator::FirstCompleted, handles)?;
        self.first_come(handles)
    }

    /// The value that an outcome brings. It fails with 408 where a moment comes first.
    #[tactic(auto, unfolding(crate::specs::Combinators::or_timeout))]
    pub fn or_timeout(&mut self, outcome: DurableFuture, wake_up: Moment) -> Told<Bytes>
        ensures { steps.Makes (combining.or_timeout outcome wake_up) self.old result self.new }
    {
        let timer = self.begin_sleep(wake_up, ByteStr::new())?;
        if self.race(&[outcome.handle(), timer.handle()])? == 0 {
            self.value_of(outcome)
        } else {
            Err(Stop::Failed(timed_out(self.alloc())))
        }
    }

    #[tactic(auto, unfolding(crate::specs::Combinators::one_more))]
    fn one_more(
        &mut self,
        required: usize,
        gathered: Gathered,
        handle: NotificationHandle,
    ) -> Told<Gathered>
        ensures { steps.Makes (combining.one_more required gathered handle) self.old result self.new }
    {
        if required <= gathered.values.len() {
            return Ok(gathered);
        }
        if self.is_completed(handle)? {
            let brought = self.take_outcome(handle)?;
            Ok(noted(gathered, brought)?)
        } else {
            Ok(gathered)
        }
    }

    #[tactic(auto, using(crate::proofs::Loops::over_handles))]
    fn gather(&mut self, required: usize, handles: &[NotificationHandle]) -> Told<Gathered>
        ensures { steps.Makes (combining.gather required combining.nothing handles.now) self.old result self.new }
    {
        let mut gathered = nothing(self.alloc());
        for handle in handles {
            gathered = self.one_more(required, gathered, *handle)?;
        }
        Ok(gathered)
    }

    #[tactic(auto, unfolding(crate::specs::Combinators::values_over))]
    fn values_over(
        &mut self,
        combinator: Combinator,
        required: usize,
        handles: &[NotificationHandle],
    ) -> Told<Sequence<Bytes>>
        ensures { steps.Makes (combining.values_over combinator required handles.now) self.old result self.new }
    {
        self.wait_until(combinator, handles)?;
        let gathered = self.gather(required, handles)?;
        Ok(enough(self.alloc(), required, gathered)?)
    }

    /// The values of all of them. It fails as soon as one of them has failed.
    #[tactic(auto, unfolding(crate::specs::Combinators::all))]
    pub fn all(&mut self, outcomes: Vec<DurableFuture>) -> Told<Sequence<Bytes>>
        ensures { steps.Makes (combining.all outcomes.items) self.old result self.new }
    {
        let handles = handles_of(self.alloc(), outcomes.as_slice())?;
        self.values_over(
            Combinator::AllSucceededOrFirstFailed,
            outcomes.len(),
            handles.as_slice(),
        )
    }

    /// The values of so many of them. It fails as soon as fewer than that can still succeed.
    #[tactic(auto, unfolding(crate::specs::Combinators::at_least))]
    pub fn at_least(&mut self, required: u32, outcomes: Vec<DurableFuture>) -> Told<Sequence<Bytes>>
        ensures { steps.Makes (combining.at_least required outcomes.items) self.old result self.new }
    {
        let handles = handles_of(self.alloc(), outcomes.as_slice())?;
        self.values_over(
            Combinator::AtLeast(required),
            required as usize,
            handles.as_slice(),
        )
    }

    fn first_of(&self, values: Sequence<Bytes>) -> Told<Bytes>
        ensures { steps.Makes (combining.first_of values) self.now result self.now }
    {
        match values.as_slice() {
            [first, ..] => Ok(first.clone()?),
            [] => Err(Stop::Failed(too_few(self.alloc()))),
        }
    }

    /// The value of the first of them that has succeeded. It fails when all have failed.
    #[tactic(auto, unfolding(crate::specs::Combinators::first_succeeded))]
    pub fn first_succeeded(&mut self, outcomes: Vec<DurableFuture>) -> Told<Bytes>
        ensures { steps.Makes (combining.first_succeeded outcomes.items) self.old result self.new }
    {
        let handles = handles_of(self.alloc(), outcomes.as_slice())?;
        let values = self.values_over(
            Combinator::FirstSucceededOrAllFailed,
            1,
            handles.as_slice(),
        )?;
        self.first_of(values)
    }
}
