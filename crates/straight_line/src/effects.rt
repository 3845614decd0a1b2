//! Sleeps, effects, and what the outside completes.
ghost use Rattle.std.specs.Prelude.{◌≡◌};
ghost use Rattle.straight_line.specs.Steps as steps;
ghost use Rattle.straight_line.specs.Calls as told;
ghost use Rattle.straight_line.specs.Everyday as everyday;

use crate::calls::Calls;
use crate::handles::{Awakeable, DurableFuture, Timer};
use crate::stop::{Stop, Told, astray, stable};
use bytes::{ByteStr, Bytes};
use journal_model::{Answer, Call, Moment, NonEmptyValue, PayloadOptions, TerminalFailure};

impl<'a> Calls<'a> {
    /// Begins a sleep, under a name, which may be empty.
    #[tactic(auto, unfolding(crate::specs::Calls::begin_sleep))]
    pub fn begin_sleep(&mut self, wake_up: Moment, name: ByteStr) -> Told<Timer>
        ensures { steps.Makes (told.begin_sleep wake_up name) self.old result self.new }
    {
        match self.next_answer() {
            Some(Answer::Handle(handle)) => Ok(Timer { handle: *handle }),
            Some(_) => Err(astray()),
            None => Err(Stop::Call(Call::Sleep {
                name,
                wake_up,
                now: None,
            })),
        }
    }

    /// Sleeps until a moment.
    #[tactic(auto, unfolding(crate::specs::Everyday::sleep_until))]
    pub fn sleep_until(&mut self, wake_up: Moment) -> Told<()>
        ensures { steps.Makes (everyday.sleep_until wake_up) self.old result self.new }
    {
        let timer = self.begin_sleep(wake_up, ByteStr::new())?;
        self.slept(timer)
    }

    /// Begins an effect outside, which is executed once.
    #[tactic(auto, unfolding(crate::specs::Calls::begin_run))]
    pub fn begin_run(&mut self, name: ByteStr) -> Told<DurableFuture>
        ensures { steps.Makes (told.begin_run name) self.old result self.new }
    {
        match self.next_answer() {
            Some(Answer::Handle(handle)) => Ok(DurableFuture { handle: *handle }),
            Some(_) => Err(astray()),
            None => Err(Stop::Call(Call::Run { name })),
        }
    }

    /// Has an effect executed outside, once, and gives what it has brought.
    #[tactic(auto, unfolding(crate::specs::Everyday::run_effect))]
    pub fn run(&mut self, name: ByteStr) -> Told<Bytes>
        ensures { steps.Makes (everyday.run_effect name) self.old result self.new }
    {
        let outcome = self.begin_run(name)?;
        self.value_of(outcome)
    }

    /// An awakeable, which the outside completes by its text.
    #[tactic(auto, unfolding(crate::specs::Calls::awakeable))]
    pub fn awakeable(&mut self) -> Told<Awakeable>
        ensures { steps.Makes told.awakeable self.old result self.new }
    {
        match self.next_answer() {
            Some(Answer::Awakeable { id, handle }) => {
                let id = id.clone()?;
                Ok(Awakeable {
                    id,
                    outcome: DurableFuture { handle: *handle },
                })
            }
            Some(_) => Err(astray()),
            None => Err(Stop::Call(Call::Awakeable)),
        }
    }

    /// Completes the awakeable of a text.
    #[tactic(auto, unfolding(crate::specs::Calls::complete_awakeable))]
    pub fn complete_awakeable(
        &mut self,
        id: ByteStr,
        value: NonEmptyValue,
        options: PayloadOptions,
    ) -> Told<()>
        ensures { steps.Makes (told.complete_awakeable id value options) self.old result self.new }
    {
        match self.next_answer() {
            Some(_) => Ok(()),
            None => Err(Stop::Call(Call::CompleteAwakeable { id, value, options })),
        }
    }

    /// Completes the awakeable of a text by a success.
    #[tactic(auto, unfolding(crate::specs::Everyday::resolve_awakeable))]
    pub fn resolve_awakeable(&mut self, id: ByteStr, value: Bytes) -> Told<()>
        ensures { steps.Makes (everyday.resolve_awakeable id value) self.old result self.new }
    {
        self.complete_awakeable(id, NonEmptyValue::Success(value), stable())
    }

    /// Completes the awakeable of a text by a failure.
    #[tactic(auto, unfolding(crate::specs::Everyday::reject_awakeable))]
    pub fn reject_awakeable(&mut self, id: ByteStr, failure: TerminalFailure) -> Told<()>
        ensures { steps.Makes (everyday.reject_awakeable id failure) self.old result self.new }
    {
        self.complete_awakeable(id, NonEmptyValue::Failure(failure), stable())
    }

    /// The next signal of a name.
    #[tactic(auto, unfolding(crate::specs::Calls::begin_signal))]
    pub fn begin_signal(&mut self, name: ByteStr) -> Told<DurableFuture>
        ensures { steps.Makes (told.begin_signal name) self.old result self.new }
    {
        match self.next_answer() {
            Some(Answer::Handle(handle)) => Ok(DurableFuture { handle: *handle }),
            Some(_) => Err(astray()),
            None => Err(Stop::Call(Call::Signal { name })),
        }
    }

    /// Waits for the next signal of a name.
    #[tactic(auto, unfolding(crate::specs::Everyday::signal))]
    pub fn signal(&mut self, name: ByteStr) -> Told<Bytes>
        ensures { steps.Makes (everyday.signal name) self.old result self.new }
    {
        let outcome = self.begin_signal(name)?;
        self.value_of(outcome)
    }

    /// Sends a signal to another invocation.
    #[tactic(auto, unfolding(crate::specs::Calls::complete_signal))]
    pub fn complete_signal(
        &mut self,
        target_id: ByteStr,
        name: ByteStr,
        value: NonEmptyValue,
    ) -> Told<()>
        ensures { steps.Makes (told.complete_signal target_id name value) self.old result self.new }
    {
        match self.next_answer() {
            Some(_) => Ok(()),
            None => Err(Stop::Call(Call::CompleteSignal {
                target_id,
                name,
                value,
            })),
        }
    }
}
