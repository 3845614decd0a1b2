//! The end of a run's body, as a turn is given it.
ghost use Rattle.std.specs.Prelude.{◌≡◌, []};
ghost use Rattle.vm_attempt.specs.Bodies.{exit_by_policy, by_policy};

use bytes::{ByteStr, Bytes};
use journal_model::TerminalFailure;
use protocol_errors::Error;
use sequence::Sequence;
use std::alloc::Global;
use std::time::Duration;
use vm_refusals::{RetryPolicy, RunExitResult};

/// How an attempt at the body of a run has ended, and how the run is tried again where that is no outcome of it.
#[derive(Debug, Clone, Drop)]
pub struct RunOutcome {
    pub result: RunExitResult,
    pub policy: RetryPolicy,
}

impl RunOutcome {
    /// It has brought this.
    pub fn done(value: Bytes) -> RunOutcome
        ensures { result ≡ record { result = RunExitResult.Success value; policy = RetryPolicy.Infinite } }
    {
        RunOutcome {
            result: RunExitResult::Success(value),
            policy: RetryPolicy::Infinite,
        }
    }

    /// It has failed for good, by this code and text: its handler is told so. It needs no memory.
    pub fn failed(alloc: Global, code: u16, message: ByteStr) -> RunOutcome
        ensures { result ≡ record { result = RunExitResult.TerminalFailure (record { code = code; message = message; metadata = [] }); policy = RetryPolicy.Infinite } }
    {
        RunOutcome {
            result: RunExitResult::TerminalFailure(TerminalFailure {
                code,
                message,
                metadata: Sequence::new(alloc),
            }),
            policy: RetryPolicy::Infinite,
        }
    }

    /// It has failed with this after so long, and is executed again, as the policy says.
    pub fn again(error: Error, attempt_duration: Duration, policy: RetryPolicy) -> RunOutcome
        ensures { result ≡ record { result = RunExitResult.RetryableFailure attempt_duration error; policy = policy } }
    {
        RunOutcome {
            result: RunExitResult::RetryableFailure {
                attempt_duration,
                error,
            },
            policy,
        }
    }
}

// The same end; an error of it says nothing of what becomes of its invocation.
fn exit_by_policy(exit: RunExitResult) -> RunExitResult
    ensures { result ≡ exit_by_policy exit }
{
    match exit {
        RunExitResult::Success(bytes) => RunExitResult::Success(bytes),
        RunExitResult::TerminalFailure(failure) => RunExitResult::TerminalFailure(failure),
        RunExitResult::RetryableFailure {
            attempt_duration,
            error,
        } => RunExitResult::RetryableFailure {
            attempt_duration,
            error: error.with_should_retry(),
        },
    }
}

/// The outcome of which the policy alone says what becomes of the invocation.
pub(crate) fn by_policy(outcome: RunOutcome) -> RunOutcome
    ensures { result ≡ by_policy outcome }
{
    RunOutcome {
        result: exit_by_policy(outcome.result),
        policy: outcome.policy,
    }
}
