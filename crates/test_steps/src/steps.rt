//! The calls that a list may have, and the handler of a list.
ghost use Rattle.std.specs.Prelude.{◌≡◌, IfOk};
ghost use Rattle.journal_model.specs.AwaitTree.{Single, Combined, no_trees, and_trees, AllCompleted};
ghost use Rattle.journal_model.specs.declared.call.Call.{Call};
ghost use Rattle.test_steps.specs.Steps as stepping;

use bytes::{ByteStr, Bytes};
use journal_model::{
    Answer, AttachInvocationTarget, AwaitedFuture, Call, Handler, Input, Moment, NonEmptyValue,
    NotificationHandle, PayloadOptions, Target, UnresolvedFuture, Value,
};
use sequence::Sequence;
use std::alloc::{AllocError, Global};

/// A call of the handler.
#[derive(Clone, Copy, Debug)]
pub enum Step {
    Get,
    GetKeys,
    Set,
    Clear,
    ClearAll,
    Run,
    Send,
    CompleteAwakeable,
    CompleteSignal,
    GetPromise,
    PeekPromise,
    CompletePromise,
    Cancel,
    Attach,
    GetOutput,
    Output,
    /// Sleeps until 10 ms.
    Sleep,
    /// Asks for the signal `a`.
    Signal,
    IsCompleted(u32),
    Take(u32),
    Await(u32),
    /// Awaits all of the one handle.
    AwaitAll(u32),
    /// Puts out what the call before has taken.
    OutputTaken,
}

// The step of a name, about a handle.
fn step_about(name: &str, handle: u32) -> Option<Step> {
    Some(match name {
        "is_completed" => Step::IsCompleted(handle),
        "take" => Step::Take(handle),
        "await" => Step::Await(handle),
        "await_all" => Step::AwaitAll(handle),
        _ => return None,
    })
}

/// The step of a name. One about a handle has its number behind a colon.
pub fn step_named(name: &str) -> Option<Step> {
    Some(match name {
        "get" => Step::Get,
        "get_keys" => Step::GetKeys,
        "set" => Step::Set,
        "clear" => Step::Clear,
        "clear_all" => Step::ClearAll,
        "run" => Step::Run,
        "send" => Step::Send,
        "complete_awakeable" => Step::CompleteAwakeable,
        "complete_signal" => Step::CompleteSignal,
        "get_promise" => Step::GetPromise,
        "peek_promise" => Step::PeekPromise,
        "complete_promise" => Step::CompletePromise,
        "cancel" => Step::Cancel,
        "attach" => Step::Attach,
        "get_output" => Step::GetOutput,
        "output" => Step::Output,
        "sleep" => Step::Sleep,
        "signal" => Step::Signal,
        "output_taken" => Step::OutputTaken,
        _ => {
            let (name, handle) = name.split_once(':')?;
            return step_about(name, handle.parse().ok()?);
        }
    })
}

fn service(alloc: Global) -> Target
    ensures { result ≡ stepping.service }
{
    Target {
        service: ByteStr::from_static("s"),
        handler: ByteStr::from_static("h"),
        key: None,
        idempotency_key: None,
        scope: None,
        limit_key: None,
        headers: Sequence::new(alloc),
    }
}

fn one() -> NonEmptyValue
    ensures { result ≡ stepping.one }
{
    NonEmptyValue::Success(Bytes::from_static(b"1"))
}

fn invocation() -> AttachInvocationTarget
    ensures { result ≡ stepping.invocation }
{
    AttachInvocationTarget::InvocationId(ByteStr::from_static("i"))
}

fn get() -> Call
    ensures { result ≡ stepping.get }
{
    Call::StateGet {
        key: ByteStr::from_static("k"),
        name: None,
        options: PayloadOptions::stable_serialization(),
    }
}

fn set() -> Call
    ensures { result ≡ stepping.set }
{
    Call::StateSet {
        key: ByteStr::from_static("k"),
        value: Bytes::from_static(b"1"),
        name: None,
        options: PayloadOptions::stable_serialization(),
    }
}

fn send(alloc: Global) -> Call
    ensures { result ≡ stepping.send }
{
    Call::Send {
        target: service(alloc),
        input: Bytes::new(),
        execution_time: None,
        name: None,
        options: PayloadOptions::stable_serialization(),
    }
}

#[tactic(auto, using(journal_model::proofs::TreeLemmas::future_trees))]
fn await_all(alloc: Global, handle: u32) -> Result<Call, AllocError>
    ensures { IfOk result (λ call. call ≡ Call.Await (Combined AllCompleted (and_trees (Single handle) no_trees))) }
{
    let mut children = Vec::new(alloc);
    children.push(UnresolvedFuture::Single(NotificationHandle::new(handle)))?;
    Ok(Call::Await(AwaitedFuture::new(UnresolvedFuture::AllCompleted(Sequence::from_vec(
        children,
    )))))
}

fn bytes_taken(answer: &Answer) -> Result<Bytes, AllocError>
    ensures { IfOk result (λ bytes. bytes ≡ stepping.bytes_taken answer.now) }
{
    match answer {
        Answer::Taken(Some(Value::Success(bytes))) => bytes.clone(),
        _ => Ok(Bytes::new()),
    }
}

fn output_taken(answers: &[Answer]) -> Result<Call, AllocError>
    ensures { IfOk result (λ call. call ≡ stepping.output_taken answers.now) }
{
    let bytes = match answers.get(answers.len().saturating_sub(1)) {
        Some(answer) => bytes_taken(answer)?,
        None => Bytes::new(),
    };
    Ok(Call::Output {
        value: NonEmptyValue::Success(bytes),
        options: PayloadOptions::stable_serialization(),
    })
}

fn sleep() -> Call
    ensures { result ≡ stepping.sleep }
{
    Call::Sleep {
        name: ByteStr::new(),
        wake_up: Moment::from_millis(10),
        now: None,
    }
}

fn call_of(alloc: Global, step: Step, answers: &[Answer]) -> Result<Call, AllocError>
    ensures { IfOk result (λ call. call ≡ stepping.call_of step answers.now) }
{
    Ok(match step {
        Step::Get => get(),
        Step::GetKeys => Call::StateGetKeys { name: None },
        Step::Set => set(),
        Step::Clear => Call::StateClear {
            key: ByteStr::from_static("k"),
            name: None,
        },
        Step::ClearAll => Call::StateClearAll { name: None },
        Step::Run => Call::Run {
            name: ByteStr::from_static("n"),
        },
        Step::Send => send(alloc),
        Step::CompleteAwakeable => Call::CompleteAwakeable {
            id: ByteStr::from_static("a"),
            value: one(),
            options: PayloadOptions::stable_serialization(),
        },
        Step::CompleteSignal => Call::CompleteSignal {
            target_id: ByteStr::from_static("i"),
            name: ByteStr::from_static("n"),
            value: one(),
        },
        Step::GetPromise => Call::GetPromise {
            key: ByteStr::from_static("k"),
        },
        Step::PeekPromise => Call::PeekPromise {
            key: ByteStr::from_static("k"),
        },
        Step::CompletePromise => Call::CompletePromise {
            key: ByteStr::from_static("k"),
            value: one(),
            options: PayloadOptions::stable_serialization(),
        },
        Step::Cancel => Call::Cancel {
            target_id: ByteStr::from_static("i"),
        },
        Step::Attach => Call::Attach(invocation()),
        Step::GetOutput => Call::GetOutput(invocation()),
        Step::Output => Call::Output {
            value: one(),
            options: PayloadOptions::stable_serialization(),
        },
        Step::Sleep => sleep(),
        Step::Signal => Call::Signal {
            name: ByteStr::from_static("a"),
        },
        Step::IsCompleted(handle) => Call::IsCompleted(NotificationHandle::new(handle)),
        Step::Take(handle) => Call::Take(NotificationHandle::new(handle)),
        Step::Await(handle) => {
            Call::Await(AwaitedFuture::single(NotificationHandle::new(handle)))
        }
        Step::AwaitAll(handle) => await_all(alloc, handle)?,
        Step::OutputTaken => output_taken(answers)?,
    })
}

/// The handler.
#[derive(Drop)]
pub struct Steps {
    pub alloc: Global,
    pub steps: Sequence<Step>,
}

impl Handler for Steps {
    ghost use Rattle.test_steps.specs.Steps.{steps};

    ghost next_call = { λ handler. steps handler.steps };

    fn next(&self, _input: &Input, answers: &[Answer]) -> Result<Call, AllocError> {
        match self.steps.get(answers.len()) {
            Some(step) => call_of(self.alloc, *step, answers),
            None => Ok(Call::End),
        }
    }
}
