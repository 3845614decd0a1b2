//! The steps of scripts, of which the built-in handlers are made.
//!
//! Names and keys that are not said are empty, and options are the default ones. A taken value is put out as it is where it is a
//! success or a failure; void and nothing as the empty success, keys joined by commas, an invocation id as its text.
ghost use Rattle.std.specs.Prelude.{◌≡◌, ◌++◌, IfOk, OnOk};
ghost use Rattle.std.specs.List.{list_any, join_with_byte};
ghost use Rattle.journal_model.specs.AwaitTree.{Combined, FirstCompleted, AllCompleted};
ghost use Rattle.built_in_handlers.specs.Handlers as scripts;

use bytes::{ByteStr, Bytes};
use journal_model::call::{Answer, Call, Moment, PayloadOptions, Target};
use journal_model::future::{AwaitedFuture, NotificationHandle, UnresolvedFuture};
use journal_model::handler::Input;
use journal_model::value::{NonEmptyValue, TerminalFailure, Value};
use sequence::Sequence;
use std::alloc::{AllocError, Global};

/// Where a script is, after the answers to its calls so far.
#[derive(Debug, Clone, Copy, PartialEq, Eq)]
pub enum Place {
    /// Right behind a cancelled await: it puts out the failure 409 `cancelled`.
    Cancelled,
    /// Behind that output.
    Over,
    /// At a call by its number, from 0.
    At(usize),
}

fn is_cancelled(answer: &Answer) -> bool
    ensures { result ≡ scripts.is_cancelled answer.now }
{
    match answer {
        Answer::Cancelled => true,
        _ => false,
    }
}

fn was_cancelled(answers: &[Answer]) -> bool
    ensures { result ≡ list_any scripts.is_cancelled answers.now }
{
    for answer in answers {
        if is_cancelled(answer) {
            return true;
        }
    }
    false
}

fn ends_cancelled(answers: &[Answer]) -> bool
    ensures { result ≡ scripts.ends_cancelled answers.now }
{
    match answers.get(answers.len().saturating_sub(1)) {
        Some(answer) => is_cancelled(answer),
        None => false,
    }
}

pub(crate) fn place_after(answers: &[Answer]) -> Place
    ensures { result ≡ scripts.place_after answers.now }
{
    if ends_cancelled(answers) {
        return Place::Cancelled;
    }
    if was_cancelled(answers) {
        return Place::Over;
    }
    Place::At(answers.len())
}

fn handle_in(answer: &Answer) -> NotificationHandle
    ensures { result ≡ scripts.handle_in answer.now }
{
    match answer {
        Answer::Handle(handle) => *handle,
        Answer::Handles { result_handle, .. } => *result_handle,
        Answer::Awakeable { handle, .. } => *handle,
        _ => NotificationHandle::new(0),
    }
}

pub(crate) fn handle_at(answers: &[Answer], at: usize) -> NotificationHandle
    ensures { result ≡ scripts.handle_at answers.now at }
{
    match answers.get(at) {
        Some(answer) => handle_in(answer),
        None => NotificationHandle::new(0),
    }
}

pub(crate) fn default_options() -> PayloadOptions
    ensures { result ≡ scripts.default_options }
{
    PayloadOptions {
        unstable_serialization: false,
    }
}

pub(crate) fn output_bytes(bytes: Bytes) -> Call
    ensures { result ≡ scripts.output_bytes bytes }
{
    Call::Output {
        value: NonEmptyValue::Success(bytes),
        options: default_options(),
    }
}

pub(crate) fn output_ok(answers: &[Answer]) -> Call
    ensures { result ≡ scripts.output_ok answers.now }
{
    output_bytes(Bytes::from_static(b"ok"))
}

pub(crate) fn cancelled_output(alloc: Global) -> Call
    ensures { result ≡ scripts.cancelled_output }
{
    Call::Output {
        value: NonEmptyValue::Failure(TerminalFailure {
            code: 409,
            message: ByteStr::from_static("cancelled"),
            metadata: Sequence::new(alloc),
        }),
        options: default_options(),
    }
}

pub(crate) fn sleep_until(ms: u64, answers: &[Answer]) -> Call
    ensures { result ≡ scripts.sleep_until ms answers.now }
{
    Call::Sleep {
        name: ByteStr::new(),
        wake_up: Moment::from_millis(ms),
        now: None,
    }
}

pub(crate) fn await_one(answers: &[Answer], at: usize) -> Call
    ensures { result ≡ scripts.await_one at answers.now }
{
    Call::Await(AwaitedFuture::single(handle_at(answers, at)))
}

pub(crate) fn take_one(answers: &[Answer], at: usize) -> Call
    ensures { result ≡ scripts.take_one at answers.now }
{
    Call::Take(handle_at(answers, at))
}

#[tactic(auto, using(journal_model::proofs::TreeLemmas::future_trees))]
pub(crate) fn await_first_of_two(alloc: Global, answers: &[Answer]) -> Result<Call, AllocError>
    ensures { IfOk result (λ call. call ≡ scripts.await_two (Combined FirstCompleted) answers.now) }
{
    let children = UnresolvedFuture::two(alloc, handle_at(answers, 0), handle_at(answers, 1))?;
    Ok(Call::Await(AwaitedFuture::new(UnresolvedFuture::FirstCompleted(children))))
}

#[tactic(auto, using(journal_model::proofs::TreeLemmas::future_trees))]
pub(crate) fn await_all_of_two(alloc: Global, answers: &[Answer]) -> Result<Call, AllocError>
    ensures { IfOk result (λ call. call ≡ scripts.await_two (Combined AllCompleted) answers.now) }
{
    let children = UnresolvedFuture::two(alloc, handle_at(answers, 0), handle_at(answers, 1))?;
    Ok(Call::Await(AwaitedFuture::new(UnresolvedFuture::AllCompleted(children))))
}

#[tactic(auto, using(journal_model::proofs::TreeLemmas::future_trees))]
pub(crate) fn await_two_of_three(alloc: Global, answers: &[Answer]) -> Result<Call, AllocError>
    ensures { IfOk result (λ call. call ≡ scripts.await_two_of_three answers.now) }
{
    let mut children = UnresolvedFuture::two(alloc, handle_at(answers, 0), handle_at(answers, 1))?;
    children.push(UnresolvedFuture::Single(handle_at(answers, 2)))?;
    Ok(Call::Await(AwaitedFuture::new(UnresolvedFuture::AtLeast(2, children))))
}

fn output_choice(answer: &Answer) -> Call
    ensures { result ≡ scripts.output_choice answer.now }
{
    match answer {
        Answer::Completed(true) => output_bytes(Bytes::from_static(b"1")),
        _ => output_bytes(Bytes::from_static(b"2")),
    }
}

pub(crate) fn choice_at(answers: &[Answer], at: usize) -> Call
    ensures { result ≡ scripts.choice_at at answers.now }
{
    match answers.get(at) {
        Some(answer) => output_choice(answer),
        None => output_bytes(Bytes::from_static(b"2")),
    }
}

pub(crate) fn completed_at(answers: &[Answer], at: usize) -> Call
    ensures { result ≡ scripts.completed_at at answers.now }
{
    Call::IsCompleted(handle_at(answers, at))
}

fn join_keys(keys: &[ByteStr], out: &mut Vec<u8>) -> Result<(), AllocError>
    ensures { OnOk result (out.new.items ≡ out.old.items ++ join_with_byte 44 keys.now) }
{
    match keys {
        [] => Ok(()),
        [last] => {
            out.extend_from_slice(last.as_bytes().as_slice())?;
            Ok(())
        }
        [first, rest @ ..] => {
            out.extend_from_slice(first.as_bytes().as_slice())?;
            out.push(b',')?;
            join_keys(rest, out)
        }
    }
}

fn joined_keys(alloc: Global, keys: &[ByteStr]) -> Result<Bytes, AllocError>
    ensures { IfOk result (λ bytes. bytes ≡ join_with_byte 44 keys.now) }
{
    let mut out = Vec::new(alloc);
    join_keys(keys, &mut out)?;
    Ok(Bytes::from_vec(out)?)
}

fn value_of_taken(alloc: Global, taken: &Option<Value>) -> Result<NonEmptyValue, AllocError>
    ensures { IfOk result (λ value. value ≡ scripts.value_of_taken taken.now) }
{
    match taken {
        None => Ok(NonEmptyValue::Success(Bytes::new())),
        Some(Value::Void) => Ok(NonEmptyValue::Success(Bytes::new())),
        Some(Value::Success(bytes)) => Ok(NonEmptyValue::Success(bytes.clone()?)),
        Some(Value::Failure(failure)) => Ok(NonEmptyValue::Failure(failure.clone()?)),
        Some(Value::InvocationId(id)) => Ok(NonEmptyValue::Success(id.as_bytes().clone()?)),
        Some(Value::StateKeys(keys)) => Ok(NonEmptyValue::Success(joined_keys(
            alloc,
            keys.as_slice(),
        )?)),
    }
}

fn output_taken(alloc: Global, answer: &Answer) -> Result<Call, AllocError>
    ensures { IfOk result (λ call. call ≡ scripts.output_taken answer.now) }
{
    match answer {
        Answer::Taken(taken) => Ok(Call::Output {
            value: value_of_taken(alloc, taken)?,
            options: default_options(),
        }),
        _ => Ok(output_bytes(Bytes::new())),
    }
}

pub(crate) fn output_at(alloc: Global, answers: &[Answer], at: usize) -> Result<Call, AllocError>
    ensures { IfOk result (λ call. call ≡ scripts.output_at at answers.now) }
{
    match answers.get(at) {
        Some(answer) => output_taken(alloc, answer),
        None => Ok(output_bytes(Bytes::new())),
    }
}

pub(crate) fn ask_service(
    alloc: Global,
    input: &Input,
    answers: &[Answer],
) -> Result<Call, AllocError>
    ensures { IfOk result (λ call. call ≡ scripts.ask_service input.now answers.now) }
{
    Ok(Call::Call {
        target: Target {
            service: ByteStr::from_static("svc"),
            handler: ByteStr::from_static("h"),
            key: None,
            idempotency_key: None,
            scope: None,
            limit_key: None,
            headers: Sequence::new(alloc),
        },
        input: input.input.clone()?,
        name: None,
        options: default_options(),
    })
}

pub(crate) fn set_x(value: Bytes, answers: &[Answer]) -> Call
    ensures { result ≡ scripts.set_x value answers.now }
{
    Call::StateSet {
        key: ByteStr::from_static("x"),
        value,
        name: None,
        options: default_options(),
    }
}
