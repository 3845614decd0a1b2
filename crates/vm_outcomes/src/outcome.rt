// What a handler's call comes to.
ghost use Rattle.std.specs.Prelude.{◌≡◌, Ok, Err};
ghost use Rattle.journal_model.specs.declared.call.Answer.{Answer};
ghost use Rattle.vm_outcomes.specs.Outcomes.{answered_as, ended_as, awaited_as};

use journal_model::{Answer, NotificationHandle};
use protocol_errors::Error;
use vm_types::AwaitResponse;

/// What a handler's call comes to.
#[derive(Debug, Drop)]
pub enum CallOutcome {
    /// It is answered.
    Answered(Answer),
    /// It is an await, and what completes it can come still: by more input, or by the outcome of a run that is being executed.
    Waiting,
    /// It is an await, and the body of this run is to be executed now, which it waits for.
    Executes(NotificationHandle),
    /// It is an await, and no more input comes: the suspension was written.
    Suspended,
    /// It was the end, which was written.
    Ended,
    /// The machine has failed, with this.
    Failed(Error),
}

/// Of a call that is answered without a value.
pub fn done(made: Result<(), Error>) -> CallOutcome
    ensures { result ≡ answered_as (λ done. Answer.Done) made }
{
    match made {
        Ok(()) => CallOutcome::Answered(Answer::Done),
        Err(error) => CallOutcome::Failed(error),
    }
}

/// Of a call that is answered by a handle.
pub fn handled(made: Result<NotificationHandle, Error>) -> CallOutcome
    ensures { result ≡ answered_as (λ handle. Answer.Handle handle) made }
{
    match made {
        Ok(handle) => CallOutcome::Answered(Answer::Handle(handle)),
        Err(error) => CallOutcome::Failed(error),
    }
}

/// Of the end.
pub fn ended(made: Result<(), Error>) -> CallOutcome
    ensures { result ≡ ended_as made }
{
    match made {
        Ok(()) => CallOutcome::Ended,
        Err(error) => CallOutcome::Failed(error),
    }
}

/// Of an await. A suspension is told as an error, and is none. For a handler nothing is read of which nothing is recorded.
pub fn awaited(made: Result<AwaitResponse, Error>) -> CallOutcome
    ensures { result ≡ awaited_as made }
{
    match made {
        Ok(response) => answered_or_waiting(response),
        Err(error) => failed_or_suspended(error),
    }
}

fn answered_or_waiting(response: AwaitResponse) -> CallOutcome
    ensures { result ≡ awaited_as (Ok response) }
{
    match response {
        AwaitResponse::AnyCompleted => CallOutcome::Answered(Answer::Woken),
        AwaitResponse::CancelSignalReceived => CallOutcome::Answered(Answer::Cancelled),
        AwaitResponse::ExecuteRun(handle) => CallOutcome::Executes(handle),
        AwaitResponse::WaitingExternalProgress { .. }
        | AwaitResponse::EphemeralNotificationReady(_) => CallOutcome::Waiting,
    }
}

fn failed_or_suspended(error: Error) -> CallOutcome
    ensures { result ≡ awaited_as (Err error) }
{
    if error.is_suspended_error() {
        drop(error);
        return CallOutcome::Suspended;
    }
    CallOutcome::Failed(error)
}
