// The first refusal of a call.
ghost use Rattle.std.specs.Prelude.{◌≡◌, ◌≤◌, ◌^◌, ◌↔◌, ◌&&◌, is_some, option_map, IfOk, IfErr, IsErr};
ghost use Rattle.journal_model.specs.Refusal.{is_given_empty, has_pairs, milliseconds, first_refusal, moment_tests, target_tests, scope_tests, attach_tests, await_tests, value_tests, send_tests};
ghost use Rattle.journal_model.specs.Future.{tree_of};
ghost use Rattle.protocol_types.specs.Feature.{lacks_feature};
ghost use Rattle.protocol_types.specs.declared.feature.Feature.{Feature};
ghost use Rattle.vm_refusals.specs.Refusals.{refusal_meant};
ghost use Rattle.vm_refusals.specs.declared.refusal.CallRefusal.TheVariants.{OutOfBoundsDuration};

use crate::CallRefusal;
use bytes::ByteStr;
use journal_model::{
    AWAIT_LEVELS, AttachInvocationTarget, Moment, NonEmptyValue, Target, TerminalFailure,
    UnresolvedFuture, has_number, is_deeper_than,
};
use protocol_types::Feature;

/// A moment in whole milliseconds, where 64 bits hold them.
pub fn to_millis(moment: Moment) -> Result<u64, CallRefusal>
    ensures ok { IfOk result (λ millis. millis ≡ milliseconds moment) }
    ensures err { IsErr result ↔ (2 ^ 64 ≤ milliseconds moment) }
    ensures refusal { IfErr result (λ refusal. refusal ≡ OutOfBoundsDuration) }
{
    match u64::try_from(moment.duration().as_millis()) {
        Ok(millis) => Ok(millis),
        Err(_) => Err(CallRefusal::OutOfBoundsDuration),
    }
}

/// Why a call with a moment is refused, if it is.
pub fn refuse_moment(moment: Moment) -> Option<CallRefusal>
    ensures { option_map refusal_meant result ≡ first_refusal (moment_tests moment) }
{
    to_millis(moment).err()
}

// Why a send at a moment, or at once, is refused by the moment, if it is.
fn refuse_execution_time(execution_time: Option<Moment>) -> Option<CallRefusal>
    ensures { option_map refusal_meant result ≡ first_refusal (send_tests execution_time) }
{
    match execution_time {
        Some(moment) => refuse_moment(moment),
        None => None,
    }
}

// Whether a text is given, and is empty.
fn is_given_empty(text: &Option<ByteStr>) -> bool
    ensures { result ≡ is_given_empty text.now }
{
    match text {
        Some(text) => text.is_empty(),
        None => false,
    }
}

// Whether a scope or a limit key is given in a version that has none.
fn is_unsupported(version: u32, text: &Option<ByteStr>) -> bool
    ensures { result ≡ (is_some text.now && lacks_feature version Feature.Scope) }
{
    text.is_some() && Feature::Scope.is_later_than(version)
}

/// Why a call or a send is refused, if it is. A call has no moment, and neither has a send at once.
pub fn refuse_target(
    version: u32,
    target: &Target,
    execution_time: Option<Moment>,
) -> Option<CallRefusal>
    ensures { option_map refusal_meant result ≡ first_refusal (target_tests version target.now (send_tests execution_time)) }
{
    if is_given_empty(&target.idempotency_key) {
        return Some(CallRefusal::EmptyIdempotencyKey);
    }
    if is_given_empty(&target.scope) {
        return Some(CallRefusal::EmptyScope);
    }
    if is_given_empty(&target.limit_key) {
        return Some(CallRefusal::EmptyLimitKey);
    }
    if is_unsupported(version, &target.scope) {
        return Some(CallRefusal::UnsupportedScope);
    }
    if is_unsupported(version, &target.limit_key) {
        return Some(CallRefusal::UnsupportedLimitKey);
    }
    refuse_execution_time(execution_time)
}

// Why a scope is refused, if it is.
fn refuse_scope(version: u32, scope: &Option<ByteStr>) -> Option<CallRefusal>
    ensures { option_map refusal_meant result ≡ first_refusal (scope_tests version scope.now) }
{
    if is_given_empty(scope) {
        return Some(CallRefusal::EmptyScope);
    }
    if is_unsupported(version, scope) {
        return Some(CallRefusal::UnsupportedScope);
    }
    None
}

/// Why it is refused to attach to the invocation, or to ask for its output, if it is.
pub fn refuse_attach(version: u32, target: &AttachInvocationTarget) -> Option<CallRefusal>
    ensures { option_map refusal_meant result ≡ first_refusal (attach_tests version target.now) }
{
    match target {
        AttachInvocationTarget::InvocationId(_) => None,
        AttachInvocationTarget::WorkflowId { scope, .. } => refuse_scope(version, scope),
        AttachInvocationTarget::IdempotencyId { scope, .. } => refuse_scope(version, scope),
    }
}

/// Why an await is refused, if it is.
pub fn refuse_await(version: u32, future: &UnresolvedFuture) -> Option<CallRefusal>
    ensures { option_map refusal_meant result ≡ first_refusal (await_tests version (tree_of future.now)) }
{
    if is_deeper_than(future, AWAIT_LEVELS) {
        return Some(CallRefusal::AwaitTooDeep);
    }
    if Feature::AtLeast.is_later_than(version) {
        if has_number(future) {
            return Some(CallRefusal::UnsupportedAtLeast);
        }
    }
    None
}

// Whether a failure has metadata in a version that has none.
fn has_unsupported_metadata(version: u32, failure: &TerminalFailure) -> bool
    ensures { result ≡ (has_pairs failure.now.metadata && lacks_feature version Feature.FailureMetadata) }
{
    !failure.metadata.is_empty() && Feature::FailureMetadata.is_later_than(version)
}

/// Why a call that hands in this value is refused, if it is.
pub fn refuse_value(version: u32, value: &NonEmptyValue) -> Option<CallRefusal>
    ensures { option_map refusal_meant result ≡ first_refusal (value_tests version value.now) }
{
    let NonEmptyValue::Failure(failure) = value else {
        return None;
    };
    if has_unsupported_metadata(version, failure) {
        return Some(CallRefusal::UnsupportedFailureMetadata);
    }
    None
}
