//! Whether and when a run that has failed is tried again. Each length of time is to the nanosecond.
ghost use Rattle.std.specs.Prelude.{◌≡◌, ◌<◌, ◌↔◌, IsNone, IfSome};
ghost use Rattle.std.specs.Duration.{as_nanos};

use std::time::Duration;

/// How often a run was tried, and for how long.
#[derive(Debug, Clone, Copy, PartialEq, Eq)]
pub struct EntryRetryInfo {
    /// How many attempts have failed so far.
    pub retry_count: u32,
    /// How long they have taken together.
    pub retry_loop_duration: Duration,
}

impl Default for EntryRetryInfo {
    ghost is_default = { λ info. (info.retry_count ≡ 0) × (as_nanos info.retry_loop_duration ≡ 0) };

    fn default() -> EntryRetryInfo {
        EntryRetryInfo {
            retry_count: 0,
            retry_loop_duration: Duration::ZERO,
        }
    }
}

/// What becomes of a run once a bound of its policy is reached.
#[derive(Debug, Clone, Copy, PartialEq, Eq)]
pub enum OnMaxAttempts {
    /// Its outcome is a terminal failure with the code and the text of the last error.
    FailAsTerminal,
    /// It has no outcome, and the invocation is paused until it is resumed. This needs version 7.
    Pause,
}

impl Default for OnMaxAttempts {
    ghost use Rattle.vm_refusals.specs.declared.retries.OnMaxAttempts.TheVariants.{FailAsTerminal};

    ghost is_default = { λ what. what ≡ FailAsTerminal };

    fn default() -> OnMaxAttempts {
        OnMaxAttempts::FailAsTerminal
    }
}

/// What an interval is multiplied by from one retry to the next: `numerator / denominator`.
#[derive(Debug, Clone, Copy)]
pub struct Factor {
    pub numerator: u32,
    pub denominator: u32,
    pub ghost divides: { 0 < denominator },
}

impl Factor {
    /// `num / den`, in the terms that are given; none where `den` is 0.
    pub fn new(num: u32, den: u32) -> Option<Factor>
        ensures none { IsNone result ↔ (den ≡ 0) }
        ensures some { IfSome result (λ factor. (factor.numerator ≡ num) × (factor.denominator ≡ den)) }
    {
        if den == 0 {
            return None;
        }
        Some(Factor {
            numerator: num,
            denominator: den,
        })
    }
}

/// Whether a run is tried again when an attempt at it has failed, and after which interval.
///
/// A bound is reached once the attempts that have failed are `max_attempts`, or have taken `max_duration` together. One that is not
/// given is never reached.
#[derive(Debug, Clone, Copy)]
pub enum RetryPolicy {
    /// Always, each time after an interval that the runtime chooses.
    Infinite,
    /// Never: the first error is terminal.
    None,
    /// Up to a bound, each time after the same interval.
    FixedDelay {
        /// Where it is not given the runtime chooses it.
        interval: Option<Duration>,
        max_attempts: Option<u32>,
        max_duration: Option<Duration>,
        on_max_attempts: OnMaxAttempts,
    },
    /// Up to a bound, each time after an interval that is the one before times a factor.
    Exponential {
        /// The interval before the first retry.
        initial_interval: Duration,
        factor: Factor,
        /// No interval is longer.
        max_interval: Option<Duration>,
        max_attempts: Option<u32>,
        max_duration: Option<Duration>,
        on_max_attempts: OnMaxAttempts,
    },
}

impl RetryPolicy {
    ghost use Rattle.vm_refusals.specs.declared.retries.RetryPolicy.TheVariants.{FixedDelay, Exponential};

    /// The policy of one interval.
    pub fn fixed_delay(
        interval: Option<Duration>,
        max_attempts: Option<u32>,
        max_duration: Option<Duration>,
        on_max_attempts: OnMaxAttempts,
    ) -> RetryPolicy
        ensures { result ≡ FixedDelay interval max_attempts max_duration on_max_attempts }
    {
        RetryPolicy::FixedDelay {
            interval,
            max_attempts,
            max_duration,
            on_max_attempts,
        }
    }

    /// The policy of intervals that grow.
    pub fn exponential(
        initial_interval: Duration,
        factor: Factor,
        max_attempts: Option<u32>,
        max_interval: Option<Duration>,
        max_duration: Option<Duration>,
        on_max_attempts: OnMaxAttempts,
    ) -> RetryPolicy
        ensures { result ≡ Exponential initial_interval factor max_interval max_attempts max_duration on_max_attempts }
    {
        RetryPolicy::Exponential {
            initial_interval,
            factor,
            max_interval,
            max_attempts,
            max_duration,
            on_max_attempts,
        }
    }
}

impl Default for RetryPolicy {
    ghost use Rattle.vm_refusals.specs.declared.retries.RetryPolicy.TheVariants.{Infinite};

    ghost is_default = { λ policy. policy ≡ Infinite };

    fn default() -> RetryPolicy {
        RetryPolicy::Infinite
    }
}

/// What becomes of a run whose attempt has failed.
#[derive(Debug, Clone, Copy, PartialEq, Eq)]
pub enum NextRetry {
    /// It is tried again after this interval, or after one that the runtime chooses.
    Retry(Option<Duration>),
    /// As [`OnMaxAttempts::FailAsTerminal`].
    FailAsTerminal,
    /// As [`OnMaxAttempts::Pause`].
    Pause,
}
