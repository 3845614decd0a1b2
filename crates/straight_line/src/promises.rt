//! Promises, which the handlers of one workflow share.
ghost use Rattle.std.specs.Prelude.{◌≡◌};
ghost use Rattle.straight_line.specs.Steps as steps;
ghost use Rattle.straight_line.specs.Calls as told;
ghost use Rattle.straight_line.specs.Everyday as everyday;

use crate::calls::Calls;
use crate::handles::{DurableFuture, Peeked};
use crate::stop::{Stop, Told, astray, stable};
use bytes::{ByteStr, Bytes};
use journal_model::{Answer, Call, NonEmptyValue, PayloadOptions, TerminalFailure};

impl<'a> Calls<'a> {
    /// The result of a promise, once it has one.
    #[tactic(auto, unfolding(crate::specs::Calls::begin_promise))]
    pub fn begin_promise(&mut self, key: ByteStr) -> Told<DurableFuture>
        ensures { steps.Makes (told.begin_promise key) self.old result self.new }
    {
        match self.next_answer() {
            Some(Answer::Handle(handle)) => Ok(DurableFuture { handle: *handle }),
            Some(_) => Err(astray()),
            None => Err(Stop::Call(Call::GetPromise { key })),
        }
    }

    /// Waits for a promise.
    #[tactic(auto, unfolding(crate::specs::Everyday::promise))]
    pub fn promise(&mut self, key: ByteStr) -> Told<Bytes>
        ensures { steps.Makes (everyday.promise key) self.old result self.new }
    {
        let outcome = self.begin_promise(key)?;
        self.value_of(outcome)
    }

    /// Asks whether a promise has a result.
    #[tactic(auto, unfolding(crate::specs::Calls::begin_peek_promise))]
    pub fn begin_peek_promise(&mut self, key: ByteStr) -> Told<Peeked>
        ensures { steps.Makes (told.begin_peek_promise key) self.old result self.new }
    {
        match self.next_answer() {
            Some(Answer::Handle(handle)) => Ok(Peeked { handle: *handle }),
            Some(_) => Err(astray()),
            None => Err(Stop::Call(Call::PeekPromise { key })),
        }
    }

    /// The result of a promise, if it has one already.
    #[tactic(auto, unfolding(crate::specs::Everyday::peek_promise))]
    pub fn peek_promise(&mut self, key: ByteStr) -> Told<Option<Result<Bytes, TerminalFailure>>>
        ensures { steps.Makes (everyday.peek_promise key) self.old result self.new }
    {
        let peeked = self.begin_peek_promise(key)?;
        self.peek_of(peeked)
    }

    /// Completes a promise. What comes of that is an empty success, or a failure.
    #[tactic(auto, unfolding(crate::specs::Calls::begin_complete_promise))]
    pub fn begin_complete_promise(
        &mut self,
        key: ByteStr,
        value: NonEmptyValue,
        options: PayloadOptions,
    ) -> Told<DurableFuture>
        ensures { steps.Makes (told.begin_complete_promise key value options) self.old result self.new }
    {
        match self.next_answer() {
            Some(Answer::Handle(handle)) => Ok(DurableFuture { handle: *handle }),
            Some(_) => Err(astray()),
            None => Err(Stop::Call(Call::CompletePromise {
                key,
                value,
                options,
            })),
        }
    }

    /// Completes a promise by a success. It fails where the promise has a result already.
    #[tactic(auto, unfolding(crate::specs::Everyday::resolve_promise))]
    pub fn resolve_promise(&mut self, key: ByteStr, value: Bytes) -> Told<()>
        ensures { steps.Makes (everyday.resolve_promise key value) self.old result self.new }
    {
        let outcome = self.begin_complete_promise(key, NonEmptyValue::Success(value), stable())?;
        self.value_of(outcome)?;
        Ok(())
    }

    /// Completes a promise by a failure. It fails where the promise has a result already.
    #[tactic(auto, unfolding(crate::specs::Everyday::reject_promise))]
    pub fn reject_promise(&mut self, key: ByteStr, failure: TerminalFailure) -> Told<()>
        ensures { steps.Makes (everyday.reject_promise key failure) self.old result self.new }
    {
        let outcome = self.begin_complete_promise(key, NonEmptyValue::Failure(failure), stable())?;
        self.value_of(outcome)?;
        Ok(())
    }
}
