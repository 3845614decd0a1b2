//! How the body of a run ends that a line's turns execute.
ghost use Rattle.std.specs.Prelude.{◌≡◌, IfErr, IfOk, IsSome};
ghost use Rattle.durable_script.specs.Outcome.{given_outcome};

use bytes::Bytes;
use durable_schedule::{RunOutcome, TerminalFailure};
use protocol_errors::{Error, InvocationErrorCode};
use script_lines::outcome::LineOutcome;
use sequence::Sequence;
use std::alloc::{AllocError, Global};
use std::time::Duration;
use vm_refusals::{RetryPolicy, RunExitResult};

/// As a line says it, of which each turn is given a copy.
pub(crate) fn run_outcome(
    alloc: Global,
    outcome: &Option<LineOutcome>,
) -> Result<RunOutcome, AllocError>
    ensures ok { IfOk result (λ made. made ≡ given_outcome outcome.now) }
    ensures err { IfErr result (λ refused. IsSome outcome.now) }
{
    let result = match outcome {
        None => RunExitResult::Success(Bytes::new()),
        Some(LineOutcome::Success(bytes)) => RunExitResult::Success(bytes.clone()?),
        Some(LineOutcome::Failure { code, message }) => {
            RunExitResult::TerminalFailure(TerminalFailure {
                code: *code,
                message: message.clone()?,
                metadata: Sequence::new(alloc),
            })
        }
        Some(LineOutcome::Retry { code, message }) => RunExitResult::RetryableFailure {
            attempt_duration: Duration::ZERO,
            error: Error::new(InvocationErrorCode::new(*code), message.clone()?),
        },
    };
    Ok(RunOutcome {
        result,
        policy: RetryPolicy::Infinite,
    })
}
