// The end of a run's body.
ghost use Rattle.std.specs.Prelude.{◌≡◌, true, IfOk, OnErr};
ghost use Rattle.vm_refusals.specs.RetryDecisions.{tried};
ghost use Rattle.journal_model.specs.declared.value.NonEmptyValue.{NonEmptyValue};
ghost use Rattle.vm_refusals.specs.BodyExits.{Outcome, as_ending, ending, feature_lacked, has_metadata, makes_failure, terminal_of};

use crate::retrying::{failed_again, next_retry, should_pause_on_max_attempts};
use crate::{EntryRetryInfo, NextRetry, RetryPolicy, RunExitResult};
use bytes::ByteStr;
use journal_model::{NonEmptyValue, TerminalFailure};
use protocol_errors::Error;
use protocol_types::Feature;
use sequence::Sequence;
use std::alloc::{AllocError, Global};
use std::time::Duration;

/// What the end of a run's body comes to.
#[derive(Debug, Drop)]
pub enum BodyEnd {
    /// An outcome, which is to be proposed.
    Outcome(NonEmptyValue),
    /// None. The attempt fails with the error, and the next begins after the delay, in place of one that the error tells; where there is
    /// none the runtime chooses.
    Retry {
        error: Error,
        delay: Option<Duration>,
    },
    /// None. The attempt fails with the error, and the invocation pauses.
    Pause(Error),
}

// An error that is not tried again.
fn terminal_of(alloc: Global, error: &Error) -> Result<TerminalFailure, AllocError>
    ensures { IfOk result (λ failure. failure ≡ terminal_of error.now) }
{
    Ok(TerminalFailure {
        code: error.code(),
        message: ByteStr::copy_from_str(alloc, error.message())?,
        metadata: Sequence::new(alloc),
    })
}

// The terminal failure of an error is the outcome.
fn fail(alloc: Global, error: Error) -> Result<BodyEnd, AllocError>
    ensures { IfOk result (λ end. as_ending end ≡ Outcome (NonEmptyValue.Failure (terminal_of error))) }
{
    let failure = terminal_of(alloc, &error);
    drop(error);
    Ok(BodyEnd::Outcome(NonEmptyValue::Failure(failure?)))
}

/// What the end of a run's body comes to, where `inherited` tells how often the run has failed before. Only the text of a failure that
/// is made of an error needs memory.
pub fn end_of_body(
    alloc: Global,
    policy: &RetryPolicy,
    inherited: EntryRetryInfo,
    exit: RunExitResult,
) -> Result<BodyEnd, AllocError>
    ensures ok { IfOk result (λ end. as_ending end ≡ ending policy.now (tried inherited) exit) }
    ensures err { OnErr result (makes_failure policy.now (tried inherited) exit ≡ true) }
{
    match exit {
        RunExitResult::Success(bytes) => Ok(BodyEnd::Outcome(NonEmptyValue::Success(bytes))),
        RunExitResult::TerminalFailure(failure) => Ok(BodyEnd::Outcome(NonEmptyValue::Failure(
            failure,
        ))),
        RunExitResult::RetryableFailure {
            attempt_duration,
            error,
        } => match next_retry(policy, failed_again(inherited, attempt_duration)) {
            NextRetry::Retry(delay) => Ok(BodyEnd::Retry { error, delay }),
            NextRetry::FailAsTerminal => fail(alloc, error),
            NextRetry::Pause => Ok(BodyEnd::Pause(error)),
        },
    }
}

fn has_metadata(exit: &RunExitResult) -> bool
    ensures { result ≡ has_metadata exit.now }
{
    match exit {
        RunExitResult::TerminalFailure(failure) => !failure.metadata.is_empty(),
        _ => false,
    }
}

/// What a version lacks for the end of a run's body, which is refused for it.
pub fn feature_lacked(version: u32, policy: &RetryPolicy, exit: &RunExitResult) -> Option<Feature>
    ensures { result ≡ feature_lacked version policy.now exit.now }
{
    if has_metadata(exit) && Feature::FailureMetadata.is_later_than(version) {
        return Some(Feature::FailureMetadata);
    }
    if should_pause_on_max_attempts(policy) && Feature::ErrorBehavior.is_later_than(version) {
        return Some(Feature::ErrorBehavior);
    }
    None
}
