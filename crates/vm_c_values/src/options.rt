// Options of a host, as numbers.
ghost use Rattle.std.specs.Prelude.{◌≡◌, bit_and};
ghost use Rattle.vm_c_values.specs.Options.{is_set, payload_options, vm_options, cancellation, awaiting, mismatch, checks, replay, delivery};

use journal_model::{ImplicitCancellationOption, PayloadOptions, SignalDelivery};
use vm_types::{
    AwaitingOnPolicy, JournalMismatchRetryBehavior, JournalReplay, NonDeterministicChecksOption,
    VMOptions,
};

const NO_IMPLICIT_CANCELLATION: u32 = 1;

const KEEP_CALLS: u32 = 2;

const CANCEL_SENDS: u32 = 4;

const NO_PAYLOAD_CHECKS: u32 = 8;

const TELL_AWAITS_ALWAYS: u32 = 16;

const TELL_AWAITS_NEVER: u32 = 32;

const PAUSE_ON_MISMATCH: u32 = 64;

const FAIL_ON_MISMATCH: u32 = 128;

const NO_REPLAY: u32 = 256;

const OVERWRITE_SIGNALS: u32 = 512;

fn has(options: u32, bit: u32) -> bool
    ensures { result ≡ is_set (bit_and options bit) }
{
    options & bit != 0
}

fn cancellation(options: u32) -> ImplicitCancellationOption
    ensures { result ≡ cancellation options }
{
    if has(options, NO_IMPLICIT_CANCELLATION) {
        ImplicitCancellationOption::Disabled
    } else {
        ImplicitCancellationOption::Enabled {
            cancel_children_calls: !has(options, KEEP_CALLS),
            cancel_children_one_way_calls: has(options, CANCEL_SENDS),
        }
    }
}

fn awaiting(options: u32) -> AwaitingOnPolicy
    ensures { result ≡ awaiting options }
{
    if has(options, TELL_AWAITS_NEVER) {
        AwaitingOnPolicy::DontSend
    } else if has(options, TELL_AWAITS_ALWAYS) {
        AwaitingOnPolicy::SendAlways
    } else {
        AwaitingOnPolicy::DontSendWhenExecutingRun
    }
}

fn mismatch(options: u32) -> JournalMismatchRetryBehavior
    ensures { result ≡ mismatch options }
{
    if has(options, FAIL_ON_MISMATCH) {
        JournalMismatchRetryBehavior::FailTerminally
    } else if has(options, PAUSE_ON_MISMATCH) {
        JournalMismatchRetryBehavior::Pause
    } else {
        JournalMismatchRetryBehavior::FollowRetryPolicy
    }
}

fn checks(options: u32) -> NonDeterministicChecksOption
    ensures { result ≡ checks options }
{
    if has(options, NO_PAYLOAD_CHECKS) {
        NonDeterministicChecksOption::PayloadChecksDisabled
    } else {
        NonDeterministicChecksOption::Enabled
    }
}

fn replay(options: u32) -> JournalReplay
    ensures { result ≡ replay options }
{
    if has(options, NO_REPLAY) {
        JournalReplay::Disabled
    } else {
        JournalReplay::Enabled
    }
}

fn delivery(options: u32) -> SignalDelivery
    ensures { result ≡ delivery options }
{
    if has(options, OVERWRITE_SIGNALS) {
        SignalDelivery::Overwrite
    } else {
        SignalDelivery::Queued
    }
}

/// The options that the bits of a number stand for: none is the usual ones.
pub fn vm_options(options: u32, fallback_random_seed: u64) -> VMOptions
    ensures { result ≡ vm_options options fallback_random_seed }
{
    VMOptions {
        implicit_cancellation: cancellation(options),
        non_determinism_checks: checks(options),
        awaiting_on_policy: awaiting(options),
        journal_mismatch_retry_behavior: mismatch(options),
        journal_replay: replay(options),
        signal_delivery: delivery(options),
        fallback_random_seed,
    }
}

/// Whether a payload's bytes may differ from one attempt to the next: any number but 0 says so.
pub fn payload_options(unstable: u32) -> PayloadOptions
    ensures { result ≡ payload_options unstable }
{
    PayloadOptions {
        unstable_serialization: unstable != 0,
    }
}
