//! Who executes what handlers do outside, and what is proposed of it.
ghost use Rattle.std.specs.Prelude.{◌≡◌};
ghost use Rattle.schedule_model.specs.Executing.{Answers, IsUnnamed, TurnsWith, mended, proposed};

use bytes::ByteStr;
use journal_model::{Handler, Input, NotificationHandle};
use protocol_errors::{Error, codes};
use std::time::Duration;
use vm_attempt::{Attempt, RetryPolicy, RunExitResult, RunOutcome, Step, Turn};
use vm_start::out_of_memory;

/// Who executes effects: the bodies of runs.
///
/// `executes` may say what is answered: of an invocation, a name and the input of its handler. It says nothing where it is left out.
pub trait Effects {
    ghost use Rattle.journal_model.specs.Notification.{Text};
    ghost use Rattle.journal_model.specs.declared.handler.Input.{Input};
    ghost use Rattle.vm_attempt.specs.declared.run_outcome.RunOutcome.{RunOutcome};

    ghost executes: { Text → Text → Input → Self → RunOutcome → Self → Type 0 } = { λ id name input before ran after. Unit {0} };

    /// An effect of this invocation is executed, by the name that its handler has given it; `input` is what the handler was given.
    ///
    /// It is asked for where its request is recorded, and no outcome of it. What it answers is recorded before the handler goes on.
    fn execute(&mut self, invocation: &ByteStr, name: &ByteStr, input: &Input) -> RunOutcome
        ensures { executes invocation.now name.now input.now self.old result self.new };
}

// The same error, but that no body fails with the code of a journal that does not match.
fn mended(error: Error) -> Error
    ensures { result ≡ mended error }
{
    if error.code() == codes::JOURNAL_MISMATCH.code() {
        drop(error);
        return Error::internal(ByteStr::from_static(
            "a body has failed with the code of a journal that does not match",
        ));
    }
    error
}

// What is proposed where a body has ended so.
fn proposed(ran: RunOutcome) -> RunOutcome
    ensures { result ≡ proposed ran }
{
    let RunOutcome { result, policy } = ran;
    let result = match result {
        RunExitResult::RetryableFailure {
            attempt_duration,
            error,
        } => RunExitResult::RetryableFailure {
            attempt_duration,
            error: mended(error),
        },
        other => other,
    };
    RunOutcome { result, policy }
}

// A body for whose name there is no memory is tried again.
fn unnamed() -> RunOutcome
    ensures { IsUnnamed result }
{
    RunOutcome {
        result: RunExitResult::RetryableFailure {
            attempt_duration: Duration::ZERO,
            error: out_of_memory(),
        },
        policy: RetryPolicy::Infinite,
    }
}

// The body of this run is executed, if there is memory for its name.
fn execute<H: Handler, E: Effects>(
    effects: &mut E,
    id: &ByteStr,
    attempt: &Attempt<H>,
    handle: NotificationHandle,
) -> RunOutcome
    ensures { Answers E.executes H.next_call id.now handle attempt.now effects.old result effects.new }
{
    let Some(input) = attempt.input() else {
        return unnamed();
    };
    match attempt.name_of_run(handle) {
        Ok(name) => proposed(effects.execute(id, &name, input)),
        Err(_) => unnamed(),
    }
}

/// One turn, whose body is executed when it is asked for.
pub(crate) fn turn_with<H: Handler, E: Effects>(
    attempt: &mut Attempt<H>,
    id: &ByteStr,
    effects: &mut E,
) -> Turn
    ensures { TurnsWith E.executes H.next_call id.now attempt.old effects.old result attempt.new effects.new }
{
    match attempt.turn_or_ask() {
        Step::Turned(turn) => turn,
        Step::Asks(handle) => {
            let ran = execute(effects, id, attempt, handle);
            attempt.end_body(handle, ran)
        }
    }
}
