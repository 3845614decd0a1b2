// When the body of a run that has failed is executed again.
ghost use Rattle.std.specs.Prelude.{◌≡◌, ℕ, ◌*◌, IfSome, is_some};
ghost use Rattle.vm_c_values.specs.Arguments.{is_policy};
ghost use Rattle.vm_c_values.specs.Policies.{IsPolicy, IsSpan, number_given, at_bound};

use std::time::Duration;
use vm_refusals::{Factor, OnMaxAttempts, RetryPolicy};

/// What a host says of a run's retries: all zero is that it is tried again always.
#[repr(C)]
#[derive(Clone, Copy)]
pub struct Policy {
    /// 0 always, 1 never, 2 after one interval, 3 after intervals that grow by the factor.
    pub kind: u32,
    /// Whether the invocation is paused at a bound, and does not fail.
    pub pause: u32,
    /// Before the first retry; of one interval 0 says that the runtime chooses it.
    pub interval_millis: u64,
    pub factor_numerator: u32,
    pub factor_denominator: u32,
    /// 0: no bound, as of the two below.
    pub max_interval_millis: u64,
    pub max_duration_millis: u64,
    pub max_attempts: u32,
}

fn span(millis: u64) -> Option<Duration>
    ensures { IsSpan millis result }
{
    if millis == 0 {
        None
    } else {
        Some(Duration::from_millis(millis))
    }
}

fn count(given: u32) -> Option<u32>
    ensures { result ≡ number_given given }
{
    if given == 0 { None } else { Some(given) }
}

fn at_bound(pause: u32) -> OnMaxAttempts
    ensures { result ≡ at_bound pause }
{
    if pause != 0 {
        OnMaxAttempts::Pause
    } else {
        OnMaxAttempts::FailAsTerminal
    }
}

/// The policy of a run's retries; none where the numbers name none: another kind, or a factor over 0.
pub fn retry_policy(policy: &Policy) -> Option<RetryPolicy>
    ensures which { is_some result ≡ is_policy policy.now }
    ensures policy { IfSome result (IsPolicy policy.now) }
{
    match policy.kind {
        0 => Some(RetryPolicy::Infinite),
        1 => Some(RetryPolicy::None),
        2 => Some(RetryPolicy::fixed_delay(
            span(policy.interval_millis),
            count(policy.max_attempts),
            span(policy.max_duration_millis),
            at_bound(policy.pause),
        )),
        3 => {
            let factor = Factor::new(policy.factor_numerator, policy.factor_denominator)?;
            Some(RetryPolicy::exponential(
                Duration::from_millis(policy.interval_millis),
                factor,
                count(policy.max_attempts),
                span(policy.max_interval_millis),
                span(policy.max_duration_millis),
                at_bound(policy.pause),
            ))
        }
        _ => None,
    }
}
