//! Calls of other invocations.
ghost use Rattle.std.specs.Prelude.{◌≡◌};
ghost use Rattle.straight_line.specs.Steps as steps;
ghost use Rattle.straight_line.specs.Calls as told;
ghost use Rattle.straight_line.specs.Everyday as everyday;

use crate::calls::Calls;
use crate::handles::{Called, DurableFuture, IdAsked, Peeked};
use crate::stop::{Stop, Told, astray, stable};
use bytes::{ByteStr, Bytes};
use journal_model::{
    Answer, AttachInvocationTarget, Call, Moment, PayloadOptions, Target, TerminalFailure,
};

impl<'a> Calls<'a> {
    /// Begins a call of a service.
    #[tactic(auto, unfolding(crate::specs::Calls::begin_call))]
    pub fn begin_call(
        &mut self,
        target: Target,
        input: Bytes,
        name: Option<ByteStr>,
        options: PayloadOptions,
    ) -> Told<Called>
        ensures { steps.Makes (told.begin_call target input name options) self.old result self.new }
    {
        match self.next_answer() {
            Some(
                Answer::Handles {
                    invocation_id_handle,
                    result_handle,
                },
            ) => Ok(Called {
                invocation_id: IdAsked {
                    handle: *invocation_id_handle,
                },
                outcome: DurableFuture {
                    handle: *result_handle,
                },
            }),
            Some(_) => Err(astray()),
            None => Err(Stop::Call(Call::Call {
                target,
                input,
                name,
                options,
            })),
        }
    }

    /// Calls a service, and waits for its value.
    #[tactic(auto, unfolding(crate::specs::Everyday::call))]
    pub fn call(&mut self, target: Target, input: Bytes) -> Told<Bytes>
        ensures { steps.Makes (everyday.call target input) self.old result self.new }
    {
        let called = self.begin_call(target, input, None, stable())?;
        self.value_of(called.outcome)
    }

    /// Calls a service and wants no result, at a moment or at once, under a name.
    #[tactic(auto, unfolding(crate::specs::Calls::send_with))]
    pub fn send_with(
        &mut self,
        target: Target,
        input: Bytes,
        execution_time: Option<Moment>,
        name: Option<ByteStr>,
        options: PayloadOptions,
    ) -> Told<IdAsked>
        ensures { steps.Makes (told.send_with target input execution_time name options) self.old result self.new }
    {
        match self.next_answer() {
            Some(Answer::Handle(handle)) => Ok(IdAsked { handle: *handle }),
            Some(_) => Err(astray()),
            None => Err(Stop::Call(Call::Send {
                target,
                input,
                execution_time,
                name,
                options,
            })),
        }
    }

    /// Calls a service at once, and wants no result.
    #[tactic(auto, unfolding(crate::specs::Everyday::send))]
    pub fn send(&mut self, target: Target, input: Bytes) -> Told<IdAsked>
        ensures { steps.Makes (everyday.send target input) self.old result self.new }
    {
        self.send_with(target, input, None, None, stable())
    }

    /// Cancels another invocation.
    #[tactic(auto, unfolding(crate::specs::Calls::cancel))]
    pub fn cancel(&mut self, target_id: ByteStr) -> Told<()>
        ensures { steps.Makes (told.cancel target_id) self.old result self.new }
    {
        match self.next_answer() {
            Some(_) => Ok(()),
            None => Err(Stop::Call(Call::Cancel { target_id })),
        }
    }

    /// The result of another invocation, once it has one.
    #[tactic(auto, unfolding(crate::specs::Calls::begin_attach))]
    pub fn begin_attach(&mut self, target: AttachInvocationTarget) -> Told<DurableFuture>
        ensures { steps.Makes (told.begin_attach target) self.old result self.new }
    {
        match self.next_answer() {
            Some(Answer::Handle(handle)) => Ok(DurableFuture { handle: *handle }),
            Some(_) => Err(astray()),
            None => Err(Stop::Call(Call::Attach(target))),
        }
    }

    /// Waits for the result of another invocation.
    #[tactic(auto, unfolding(crate::specs::Everyday::attach))]
    pub fn attach(&mut self, target: AttachInvocationTarget) -> Told<Bytes>
        ensures { steps.Makes (everyday.attach target) self.old result self.new }
    {
        let outcome = self.begin_attach(target)?;
        self.value_of(outcome)
    }

    /// Asks whether another invocation has a result.
    #[tactic(auto, unfolding(crate::specs::Calls::begin_get_output))]
    pub fn begin_get_output(&mut self, target: AttachInvocationTarget) -> Told<Peeked>
        ensures { steps.Makes (told.begin_get_output target) self.old result self.new }
    {
        match self.next_answer() {
            Some(Answer::Handle(handle)) => Ok(Peeked { handle: *handle }),
            Some(_) => Err(astray()),
            None => Err(Stop::Call(Call::GetOutput(target))),
        }
    }

    /// The result of another invocation, if it has one already.
    #[tactic(auto, unfolding(crate::specs::Everyday::get_output))]
    pub fn get_output(
        &mut self,
        target: AttachInvocationTarget,
    ) -> Told<Option<Result<Bytes, TerminalFailure>>>
        ensures { steps.Makes (everyday.get_output target) self.old result self.new }
    {
        let peeked = self.begin_get_output(target)?;
        self.peek_of(peeked)
    }
}
