//! The options of a virtual machine.
use journal_model::{ImplicitCancellationOption, SignalDelivery};

/// When it is told what an attempt waits for, from version 7 of the protocol on.
#[derive(Debug, Clone, Copy, PartialEq, Eq)]
pub enum AwaitingOnPolicy {
    SendAlways,
    /// Not while a run is executing.
    DontSendWhenExecutingRun,
    DontSend,
}

impl Default for AwaitingOnPolicy {
    ghost use Rattle.std.specs.Prelude.{◌≡◌};
    ghost use Rattle.vm_types.specs.declared.options.AwaitingOnPolicy.TheVariants.{DontSendWhenExecutingRun};

    ghost is_default = { λ policy. policy ≡ DontSendWhenExecutingRun };

    fn default() -> AwaitingOnPolicy {
        AwaitingOnPolicy::DontSendWhenExecutingRun
    }
}

/// Whether a replayed command's payload is compared with the recorded one.
#[derive(Debug, Clone, Copy, PartialEq, Eq)]
pub enum NonDeterministicChecksOption {
    PayloadChecksDisabled,
    Enabled,
}

impl Default for NonDeterministicChecksOption {
    ghost use Rattle.std.specs.Prelude.{◌≡◌};
    ghost use Rattle.vm_types.specs.declared.options.NonDeterministicChecksOption.TheVariants.{Enabled};

    ghost is_default = { λ checks. checks ≡ Enabled };

    fn default() -> NonDeterministicChecksOption {
        NonDeterministicChecksOption::Enabled
    }
}

/// What is asked for when a replayed command is not the recorded one.
#[derive(Debug, Clone, Copy, PartialEq, Eq)]
pub enum JournalMismatchRetryBehavior {
    Pause,
    FailTerminally,
    FollowRetryPolicy,
}

impl Default for JournalMismatchRetryBehavior {
    ghost use Rattle.std.specs.Prelude.{◌≡◌};
    ghost use Rattle.vm_types.specs.declared.options.JournalMismatchRetryBehavior.TheVariants.{FollowRetryPolicy};

    ghost is_default = { λ behavior. behavior ≡ FollowRetryPolicy };

    fn default() -> JournalMismatchRetryBehavior {
        JournalMismatchRetryBehavior::FollowRetryPolicy
    }
}

/// What a further attempt does with the journal of the earlier ones.
#[derive(Debug, Clone, Copy, PartialEq, Eq)]
pub enum JournalReplay {
    Enabled,
    Disabled,
}

impl Default for JournalReplay {
    ghost use Rattle.std.specs.Prelude.{◌≡◌};
    ghost use Rattle.vm_types.specs.declared.options.JournalReplay.TheVariants.{Enabled};

    ghost is_default = { λ replay. replay ≡ Enabled };

    fn default() -> JournalReplay {
        JournalReplay::Enabled
    }
}

/// The options of a virtual machine.
#[derive(Debug, Clone, Copy, PartialEq, Eq)]
pub struct VMOptions {
    pub implicit_cancellation: ImplicitCancellationOption,
    pub non_determinism_checks: NonDeterministicChecksOption,
    pub awaiting_on_policy: AwaitingOnPolicy,
    pub journal_mismatch_retry_behavior: JournalMismatchRetryBehavior,
    pub journal_replay: JournalReplay,
    pub signal_delivery: SignalDelivery,
    /// What a handler draws random numbers from before version 6, where the start has no seed.
    pub fallback_random_seed: u64,
}

impl Default for VMOptions {
    ghost use Rattle.std.specs.Prelude.{◌≡◌};
    ghost use Rattle.vm_types.specs.Options.{default_options};

    ghost is_default = { λ options. options ≡ default_options };

    fn default() -> VMOptions {
        VMOptions {
            implicit_cancellation: ImplicitCancellationOption::default(),
            non_determinism_checks: NonDeterministicChecksOption::default(),
            awaiting_on_policy: AwaitingOnPolicy::default(),
            journal_mismatch_retry_behavior: JournalMismatchRetryBehavior::default(),
            journal_replay: JournalReplay::default(),
            signal_delivery: SignalDelivery::default(),
            fallback_random_seed: 0,
        }
    }
}
