// What a call, and the end of a run's body, is by its types: functions that look at each text and number in it, and change nothing.
ghost use Rattle.std.specs.Prelude.{◌<◌, ◌≤◌, ◌^◌, IsUtf8, IfSome};
ghost use Rattle.std.specs.List.{AllByRecursion};
ghost use Rattle.vm_request_laws.specs.Calls.{IsTypedPair, IsTypedFailure, IsTypedValue, IsTypedHeader, IsTypedTarget, IsTypedAttach, NumbersFit, IsTypedCall};
ghost use Rattle.journal_model.specs.AwaitTree.{levels_of};
ghost use Rattle.journal_model.specs.Future.{tree_of};
ghost use Rattle.vm_attempt.specs.ExitTypes.{IsTypedCommand, IsTypedError, IsTypedExit, IsTypedOutcome};

use crate::run_outcome::RunOutcome;
use bytes::ByteStr;
use journal_model::{
    AWAIT_LEVELS, AttachInvocationTarget, Call, Header, NonEmptyValue, Target, TerminalFailure,
    UnresolvedFuture,
};
use protocol_errors::{CommandMetadata, Error};
use sequence::Sequence;
use vm_refusals::RunExitResult;

fn text_is_typed(text: &ByteStr)
    ensures { IsUtf8 text.now }
{
    let _ = text.as_bytes();
}

fn text_or_none_is_typed(text: &Option<ByteStr>)
    ensures { IfSome text.now IsUtf8 }
{
    if let Some(text) = text {
        text_is_typed(text);
    }
}

fn code_is_typed(code: u16)
    ensures { code < 2 ^ 16 }
{
    let _ = code;
}

fn pair_is_typed(pair: &(ByteStr, ByteStr))
    ensures { IsTypedPair pair.now }
{
    text_is_typed(&pair.0);
    text_is_typed(&pair.1);
}

fn pairs_are_typed(pairs: &[(ByteStr, ByteStr)])
    ensures { AllByRecursion IsTypedPair pairs.now }
{
    for pair in pairs {
        pair_is_typed(pair);
    }
}

fn failure_is_typed(failure: &TerminalFailure)
    ensures { IsTypedFailure failure.now }
{
    code_is_typed(failure.code);
    text_is_typed(&failure.message);
    pairs_are_typed(failure.metadata.as_slice());
}

fn value_is_typed(value: &NonEmptyValue)
    ensures { IsTypedValue value.now }
{
    match value {
        NonEmptyValue::Success(_) => (),
        NonEmptyValue::Failure(failure) => failure_is_typed(failure),
    }
}

fn header_is_typed(header: &Header)
    ensures { IsTypedHeader header.now }
{
    text_is_typed(&header.key);
    text_is_typed(&header.value);
}

fn headers_are_typed(headers: &[Header])
    ensures { AllByRecursion IsTypedHeader headers.now }
{
    for header in headers {
        header_is_typed(header);
    }
}

fn target_is_typed(target: &Target)
    ensures { IsTypedTarget target.now }
{
    text_is_typed(&target.service);
    text_is_typed(&target.handler);
    text_or_none_is_typed(&target.key);
    text_or_none_is_typed(&target.idempotency_key);
    text_or_none_is_typed(&target.scope);
    text_or_none_is_typed(&target.limit_key);
    headers_are_typed(target.headers.as_slice());
}

fn attach_is_typed(target: &AttachInvocationTarget)
    ensures { IsTypedAttach target.now }
{
    match target {
        AttachInvocationTarget::InvocationId(id) => text_is_typed(id),
        AttachInvocationTarget::WorkflowId { name, key, scope } => {
            text_is_typed(name);
            text_is_typed(key);
            text_or_none_is_typed(scope);
        }
        AttachInvocationTarget::IdempotencyId {
            service_name,
            handler_name,
            idempotency_key,
            service_key,
            scope,
        } => {
            text_is_typed(service_name);
            text_is_typed(handler_name);
            text_is_typed(idempotency_key);
            text_or_none_is_typed(service_key);
            text_or_none_is_typed(scope);
        }
    }
}

fn keyed_is_typed(key: &ByteStr, name: &Option<ByteStr>)
    ensures key { IsUtf8 key.now }
    ensures name { IfSome name.now IsUtf8 }
{
    text_is_typed(key);
    text_or_none_is_typed(name);
}

fn named_target_is_typed(target: &Target, name: &Option<ByteStr>)
    ensures target { IsTypedTarget target.now }
    ensures name { IfSome name.now IsUtf8 }
{
    target_is_typed(target);
    text_or_none_is_typed(name);
}

fn keyed_value_is_typed(key: &ByteStr, value: &NonEmptyValue)
    ensures key { IsUtf8 key.now }
    ensures value { IsTypedValue value.now }
{
    text_is_typed(key);
    value_is_typed(value);
}

// It looks no deeper than so many levels.
#[cycle(futures_typed)]
#[tactic(auto, using(journal_model::proofs::TreeLemmas::future_trees))]
fn future_is_typed(future: &UnresolvedFuture, levels: u32)
    ensures { levels_of (tree_of future.now) ≤ levels → NumbersFit (tree_of future.now) }
{
    match future {
        UnresolvedFuture::Single(_) => (),
        UnresolvedFuture::FirstCompleted(children) => futures_are_typed(children, levels),
        UnresolvedFuture::AllCompleted(children) => futures_are_typed(children, levels),
        UnresolvedFuture::FirstSucceededOrAllFailed(children) => {
            futures_are_typed(children, levels)
        }
        UnresolvedFuture::AllSucceededOrFirstFailed(children) => {
            futures_are_typed(children, levels)
        }
        UnresolvedFuture::Unknown(children) => futures_are_typed(children, levels),
        UnresolvedFuture::AtLeast(required, children) => {
            number_is_typed(*required);
            futures_are_typed(children, levels);
        }
    }
}

#[cycle(futures_typed)]
fn futures_are_typed(children: &Sequence<UnresolvedFuture>, levels: u32)
    ensures { AllByRecursion (λ child. levels_of (tree_of child) < levels → NumbersFit (tree_of child)) children.now }
{
    if levels == 0 {
        return;
    }
    for child in children.as_slice() {
        future_is_typed(child, levels - 1);
    }
}

/// A call is of its type: a type says so of each text and number in it, and here it is said of all of them together.
pub(crate) fn call_is_typed(call: &Call)
    ensures { IsTypedCall call.now }
{
    match call {
        Call::StateGet { key, name, .. }
        | Call::StateSet { key, name, .. }
        | Call::StateClear { key, name } => keyed_is_typed(key, name),
        Call::StateGetKeys { name } | Call::StateClearAll { name } => text_or_none_is_typed(name),
        Call::Call { target, name, .. } | Call::Send { target, name, .. } => {
            named_target_is_typed(target, name)
        }
        Call::CompleteAwakeable { id, value, .. } => keyed_value_is_typed(id, value),
        Call::CompletePromise { key, value, .. } => keyed_value_is_typed(key, value),
        Call::CompleteSignal {
            target_id,
            name,
            value,
        } => {
            text_is_typed(target_id);
            keyed_value_is_typed(name, value);
        }
        Call::Sleep { name, .. } => text_is_typed(name),
        Call::Signal { name } | Call::Run { name } => text_is_typed(name),
        Call::GetPromise { key } | Call::PeekPromise { key } => text_is_typed(key),
        Call::Cancel { target_id } => text_is_typed(target_id),
        Call::Attach(target) | Call::GetOutput(target) => attach_is_typed(target),
        Call::Output { value, .. } => value_is_typed(value),
        Call::Await(awaited) => future_is_typed(awaited.future(), AWAIT_LEVELS),
        Call::Awakeable | Call::IsCompleted(_) | Call::Take(_) | Call::End => (),
    }
}

fn number_is_typed(number: u32)
    ensures { number < 2 ^ 32 }
{
    let _ = number;
}

fn message_is_typed(text: &str)
    ensures { IsUtf8 text.now }
{
    let _ = text.as_bytes();
}

fn command_is_typed(command: &CommandMetadata)
    ensures { IsTypedCommand command.now }
{
    number_is_typed(command.index);
    text_or_none_is_typed(&command.name);
}

fn error_is_typed(error: &Error)
    ensures { IsTypedError error.now }
{
    code_is_typed(error.code());
    message_is_typed(error.message());
    if let Some(command) = error.related_command() {
        command_is_typed(command);
    }
}

fn exit_is_typed(exit: &RunExitResult)
    ensures { IsTypedExit exit.now }
{
    match exit {
        RunExitResult::Success(_) => (),
        RunExitResult::TerminalFailure(failure) => failure_is_typed(failure),
        RunExitResult::RetryableFailure { error, .. } => error_is_typed(error),
    }
}

/// The same of the end of a run's body.
pub(crate) fn outcome_is_typed(outcome: &RunOutcome)
    ensures { IsTypedOutcome outcome.now }
{
    exit_is_typed(&outcome.result);
}
