// Policies, their bounds, and what was tried so far.
ghost use Rattle.std.specs.Prelude.{◌≡◌, ◌≤◌, option_map};
ghost use Rattle.std.specs.Duration.{as_nanos, max_nanos};
ghost use Rattle.vm_refusals.specs.RetryDecisions.{after_failure, as_told, at_bound, inherits, is_reached, may_pause, most_of, one_more, pauses_at_bound, reaches_bound, tried};

use crate::intervals::interval_after;
use crate::{EntryRetryInfo, NextRetry, OnMaxAttempts, RetryPolicy};
use std::time::Duration;

fn is_count_reached(bound: Option<u32>, count: u32) -> bool
    ensures { result ≡ is_reached bound count }
{
    match bound {
        Some(bound) => bound <= count,
        None => false,
    }
}

fn is_duration_reached(bound: Option<Duration>, duration: Duration) -> bool
    ensures { result ≡ is_reached (option_map as_nanos bound) (as_nanos duration) }
{
    match bound {
        Some(bound) => bound.as_nanos() <= duration.as_nanos(),
        None => false,
    }
}

// Whether one of the bounds is reached.
fn reaches_bound(
    max_attempts: Option<u32>,
    max_duration: Option<Duration>,
    info: EntryRetryInfo,
) -> bool
    ensures { result ≡ reaches_bound max_attempts max_duration (tried info) }
{
    is_count_reached(max_attempts, info.retry_count)
        || is_duration_reached(max_duration, info.retry_loop_duration)
}

fn at_bound(on_max_attempts: OnMaxAttempts) -> NextRetry
    ensures { as_told result ≡ at_bound on_max_attempts }
{
    match on_max_attempts {
        OnMaxAttempts::FailAsTerminal => NextRetry::FailAsTerminal,
        OnMaxAttempts::Pause => NextRetry::Pause,
    }
}

fn pauses_at_bound(on_max_attempts: OnMaxAttempts) -> bool
    ensures { result ≡ pauses_at_bound on_max_attempts }
{
    matches!(on_max_attempts, OnMaxAttempts::Pause)
}

fn nanos_of(duration: Duration) -> u128
    ensures nanos { result ≡ as_nanos duration }
    ensures fits { result ≤ max_nanos }
{
    duration.as_nanos()
}

// The longest that an interval may be.
fn most_of(max_interval: Option<Duration>) -> u128
    ensures most { result ≡ most_of max_interval }
    ensures fits { result ≤ max_nanos }
{
    nanos_of(max_interval.unwrap_or(Duration::MAX))
}

/// What becomes of a run that has failed, with this failure, so often and for so long.
pub fn next_retry(policy: &RetryPolicy, info: EntryRetryInfo) -> NextRetry
    ensures { as_told result ≡ after_failure policy.now (tried info) }
{
    match policy {
        RetryPolicy::Infinite => NextRetry::Retry(None),
        RetryPolicy::None => NextRetry::FailAsTerminal,
        RetryPolicy::FixedDelay {
            interval,
            max_attempts,
            max_duration,
            on_max_attempts,
        } => {
            if reaches_bound(*max_attempts, *max_duration, info) {
                at_bound(*on_max_attempts)
            } else {
                NextRetry::Retry(*interval)
            }
        }
        RetryPolicy::Exponential {
            initial_interval,
            factor,
            max_interval,
            max_attempts,
            max_duration,
            on_max_attempts,
        } => {
            if reaches_bound(*max_attempts, *max_duration, info) {
                return at_bound(*on_max_attempts);
            }
            let interval = interval_after(
                nanos_of(*initial_interval),
                *factor,
                most_of(*max_interval),
                info.retry_count.saturating_sub(1),
            );
            NextRetry::Retry(Some(Duration::from_nanos_u128(interval)))
        }
    }
}

/// Whether a policy may pause an invocation. This needs version 7.
pub fn should_pause_on_max_attempts(policy: &RetryPolicy) -> bool
    ensures { result ≡ may_pause policy.now }
{
    match policy {
        RetryPolicy::Infinite | RetryPolicy::None => false,
        RetryPolicy::FixedDelay {
            on_max_attempts,
            ..
        } => pauses_at_bound(*on_max_attempts),
        RetryPolicy::Exponential {
            on_max_attempts,
            ..
        } => pauses_at_bound(*on_max_attempts),
    }
}

/// What a run inherits of the attempts before this one, by what its start has told of them and whether a command was written in it.
pub fn inherited(started: EntryRetryInfo, has_written: bool) -> EntryRetryInfo
    ensures { tried result ≡ inherits has_written (tried started) }
{
    if has_written || started.retry_count == 0 {
        return EntryRetryInfo {
            retry_count: 0,
            retry_loop_duration: Duration::ZERO,
        };
    }
    started
}

/// The same, with one more attempt that has failed after so long.
pub fn failed_again(info: EntryRetryInfo, attempt_duration: Duration) -> EntryRetryInfo
    ensures { tried result ≡ one_more (as_nanos attempt_duration) (tried info) }
{
    EntryRetryInfo {
        retry_count: info.retry_count.saturating_add(1),
        retry_loop_duration: info.retry_loop_duration.saturating_add(attempt_duration),
    }
}
