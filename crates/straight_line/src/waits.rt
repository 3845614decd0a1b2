//! Waiting, and taking what has come.
//!
//! What fails, and a cancellation of the invocation, leaves the code as `Stop::Failed`: passed on by `?`, it fails the invocation.
ghost use Rattle.std.specs.Prelude.{◌≡◌};
ghost use Rattle.straight_line.specs.Steps as steps;
ghost use Rattle.straight_line.specs.Calls as told;
ghost use Rattle.straight_line.specs.Everyday as everyday;

use crate::calls::Calls;
use crate::handles::{DurableFuture, IdAsked, KeysRead, Peeked, StateRead, Timer};
use crate::stop::{Stop, Told, astray, cancelled};
use bytes::{ByteStr, Bytes};
use journal_model::{Answer, AwaitedFuture, Call, NotificationHandle, TerminalFailure, Value};
use sequence::Sequence;

impl<'a> Calls<'a> {
    /// Waits until a future is awake. A cancellation fails the invocation, unless the handler catches it.
    #[tactic(auto, unfolding(crate::specs::Calls::wait_for))]
    pub fn wait_for(&mut self, future: AwaitedFuture) -> Told<()>
        ensures { steps.Makes (told.wait_for future) self.old result self.new }
    {
        match self.next_answer() {
            Some(Answer::Woken) => Ok(()),
            Some(Answer::Cancelled) => Err(Stop::Failed(cancelled(self.alloc()))),
            Some(_) => Err(astray()),
            None => Err(Stop::Call(Call::Await(future))),
        }
    }

    /// Whether what a handle is for has come and was not taken.
    #[tactic(auto, unfolding(crate::specs::Calls::is_completed))]
    pub fn is_completed(&mut self, handle: NotificationHandle) -> Told<bool>
        ensures { steps.Makes (told.is_completed handle) self.old result self.new }
    {
        match self.next_answer() {
            Some(Answer::Completed(is_completed)) => Ok(*is_completed),
            Some(_) => Err(astray()),
            None => Err(Stop::Call(Call::IsCompleted(handle))),
        }
    }

    #[tactic(auto, unfolding(crate::specs::Calls::take_outcome))]
    pub(crate) fn take_outcome(
        &mut self,
        handle: NotificationHandle,
    ) -> Told<Result<Bytes, TerminalFailure>>
        ensures { steps.Makes (told.take_outcome handle) self.old result self.new }
    {
        match self.next_answer() {
            Some(Answer::Taken(Some(Value::Success(bytes)))) => Ok(Ok(bytes.clone()?)),
            Some(Answer::Taken(Some(Value::Void))) => Ok(Ok(Bytes::new())),
            Some(Answer::Taken(Some(Value::Failure(failure)))) => Ok(Err(failure.clone()?)),
            Some(_) => Err(astray()),
            None => Err(Stop::Call(Call::Take(handle))),
        }
    }

    #[tactic(auto, unfolding(crate::specs::Calls::take_peeked))]
    fn take_peeked(
        &mut self,
        handle: NotificationHandle,
    ) -> Told<Option<Result<Bytes, TerminalFailure>>>
        ensures { steps.Makes (told.take_peeked handle) self.old result self.new }
    {
        match self.next_answer() {
            Some(Answer::Taken(Some(Value::Success(bytes)))) => Ok(Some(Ok(bytes.clone()?))),
            Some(Answer::Taken(Some(Value::Failure(failure)))) => Ok(Some(Err(failure.clone()?))),
            Some(Answer::Taken(Some(Value::Void))) => Ok(None),
            Some(_) => Err(astray()),
            None => Err(Stop::Call(Call::Take(handle))),
        }
    }

    #[tactic(auto, unfolding(crate::specs::Calls::take_state))]
    fn take_state(&mut self, handle: NotificationHandle) -> Told<Option<Bytes>>
        ensures { steps.Makes (told.take_state handle) self.old result self.new }
    {
        match self.next_answer() {
            Some(Answer::Taken(Some(Value::Success(bytes)))) => Ok(Some(bytes.clone()?)),
            Some(Answer::Taken(Some(Value::Void))) => Ok(None),
            Some(_) => Err(astray()),
            None => Err(Stop::Call(Call::Take(handle))),
        }
    }

    #[tactic(auto, unfolding(crate::specs::Calls::take_keys))]
    fn take_keys(&mut self, handle: NotificationHandle) -> Told<Sequence<ByteStr>>
        ensures { steps.Makes (told.take_keys handle) self.old result self.new }
    {
        match self.next_answer() {
            Some(Answer::Taken(Some(Value::StateKeys(keys)))) => Ok(keys.clone()?),
            Some(_) => Err(astray()),
            None => Err(Stop::Call(Call::Take(handle))),
        }
    }

    #[tactic(auto, unfolding(crate::specs::Calls::take_id))]
    fn take_id(&mut self, handle: NotificationHandle) -> Told<ByteStr>
        ensures { steps.Makes (told.take_id handle) self.old result self.new }
    {
        match self.next_answer() {
            Some(Answer::Taken(Some(Value::InvocationId(id)))) => Ok(id.clone()?),
            Some(_) => Err(astray()),
            None => Err(Stop::Call(Call::Take(handle))),
        }
    }

    /// Waits for one notification.
    #[tactic(auto, unfolding(crate::specs::Everyday::wait))]
    pub fn wait(&mut self, handle: NotificationHandle) -> Told<()>
        ensures { steps.Makes (everyday.wait handle) self.old result self.new }
    {
        self.wait_for(AwaitedFuture::single(handle))
    }

    /// Waits until a sleep is over.
    #[tactic(auto, unfolding(crate::specs::Everyday::slept))]
    pub fn slept(&mut self, timer: Timer) -> Told<()>
        ensures { steps.Makes (everyday.slept timer) self.old result self.new }
    {
        self.wait(timer.handle)
    }

    /// What a run, a call, a signal and the like come to.
    #[tactic(auto, unfolding(crate::specs::Everyday::result_of))]
    pub fn result_of(&mut self, outcome: DurableFuture) -> Told<Result<Bytes, TerminalFailure>>
        ensures { steps.Makes (everyday.result_of outcome) self.old result self.new }
    {
        self.wait(outcome.handle)?;
        self.take_outcome(outcome.handle)
    }

    /// The value that they bring, or the failure.
    #[tactic(auto, unfolding(crate::specs::Everyday::value_of))]
    pub fn value_of(&mut self, outcome: DurableFuture) -> Told<Bytes>
        ensures { steps.Makes (everyday.value_of outcome) self.old result self.new }
    {
        Ok(self.result_of(outcome)??)
    }

    /// The result of what may have none yet.
    #[tactic(auto, unfolding(crate::specs::Everyday::peek_of))]
    pub fn peek_of(&mut self, peeked: Peeked) -> Told<Option<Result<Bytes, TerminalFailure>>>
        ensures { steps.Makes (everyday.peek_of peeked) self.old result self.new }
    {
        self.wait(peeked.handle)?;
        self.take_peeked(peeked.handle)
    }

    /// The value of a key that is read.
    #[tactic(auto, unfolding(crate::specs::Everyday::state_of))]
    pub fn state_of(&mut self, read: StateRead) -> Told<Option<Bytes>>
        ensures { steps.Makes (everyday.state_of read) self.old result self.new }
    {
        self.wait(read.handle)?;
        self.take_state(read.handle)
    }

    /// The keys that are read.
    #[tactic(auto, unfolding(crate::specs::Everyday::keys_of))]
    pub fn keys_of(&mut self, read: KeysRead) -> Told<Sequence<ByteStr>>
        ensures { steps.Makes (everyday.keys_of read) self.old result self.new }
    {
        self.wait(read.handle)?;
        self.take_keys(read.handle)
    }

    /// The id of the invocation that a call or a send has begun.
    #[tactic(auto, unfolding(crate::specs::Everyday::id_of))]
    pub fn id_of(&mut self, asked: IdAsked) -> Told<ByteStr>
        ensures { steps.Makes (everyday.id_of asked) self.old result self.new }
    {
        self.wait(asked.handle)?;
        self.take_id(asked.handle)
    }
}
