//! The calls and the output of a handler behind answers that words stand for. Nothing is promised here, so that a test stays
//! short to prove.
use built_in_handlers::BuiltIn;
use bytes::{ByteStr, Bytes};
use journal_model::{Answer, Call, Handler, Input, NonEmptyValue, NotificationHandle, Value};
use sequence::Sequence;
use std::alloc::{AllocError, Global};
use std::str;

fn input(alloc: Global) -> Input {
    Input {
        invocation_id: ByteStr::from_static("i1"),
        key: ByteStr::from_static("o"),
        random_seed: 1,
        headers: Sequence::new(alloc),
        input: Bytes::from_static(b"in"),
        scope: None,
        limit_key: None,
        idempotency_key: None,
    }
}

/// The keys `a` and `b`.
fn keys(alloc: Global) -> Result<Value, AllocError> {
    let mut keys = Sequence::new(alloc);
    keys.push(ByteStr::from_static("a"))?;
    keys.push(ByteStr::from_static("b"))?;
    Ok(Value::StateKeys(keys))
}

/// Of a number the handle, and of two with a comma between them the two handles of a call.
fn handles(word: &str) -> Option<Answer> {
    match word.split_once(',') {
        None => Some(Answer::Handle(NotificationHandle::new(word.parse().ok()?))),
        Some((first, second)) => Some(Answer::Handles {
            invocation_id_handle: NotificationHandle::new(first.parse().ok()?),
            result_handle: NotificationHandle::new(second.parse().ok()?),
        }),
    }
}

fn answer(alloc: Global, word: &str) -> Option<Answer> {
    match word {
        "woken" => Some(Answer::Woken),
        "cancelled" => Some(Answer::Cancelled),
        "not-completed" => Some(Answer::Completed(false)),
        "done" => Some(Answer::Done),
        "void" => Some(Answer::Taken(Some(Value::Void))),
        "text" => Some(Answer::Taken(Some(Value::Success(Bytes::from_static(b"z"))))),
        "keys" => Some(Answer::Taken(Some(keys(alloc).ok()?))),
        _ => handles(word),
    }
}

fn answers(alloc: Global, words: &str) -> Option<Vec<Answer>> {
    let mut answers = Vec::new(alloc);
    for word in words.split(' ') {
        answers.push(answer(alloc, word)?).ok()?;
    }
    Some(answers)
}

fn kind(call: &Call) -> &'static str {
    match call {
        Call::StateGet { .. } => "read ",
        Call::StateGetKeys { .. } => "keys ",
        Call::StateSet { .. } => "set ",
        Call::StateClear { .. } => "clear ",
        Call::Sleep { .. } => "sleep ",
        Call::Call { .. } => "call ",
        Call::Awakeable => "awakeable ",
        Call::Signal { .. } => "signal ",
        Call::Run { .. } => "run ",
        Call::IsCompleted(_) => "is-completed ",
        Call::Take(_) => "take ",
        Call::Await(_) => "await ",
        Call::Output { .. } => "output ",
        Call::End => "end ",
        _ => "another ",
    }
}

/// The call behind these answers.
pub fn call_behind(
    alloc: Global,
    handler: &BuiltIn,
    answers: &[Answer],
) -> Result<Call, AllocError> {
    let input = input(alloc);
    let call = handler.next(&input, answers);
    drop(input);
    call
}

/// Puts the kind of the call behind these answers.
fn put_kind(
    alloc: Global,
    handler: &BuiltIn,
    answers: &[Answer],
    kinds: &mut String,
) -> Result<(), AllocError> {
    let call = call_behind(alloc, handler, answers)?;
    let kind = kind(&call);
    drop(call);
    kinds.push_str(kind)
}

/// The kinds of the calls before the first answer, behind it, and so on, a space behind each.
fn kinds(alloc: Global, handler: &BuiltIn, answers: &[Answer]) -> Result<String, AllocError> {
    let mut kinds = String::new(alloc);
    put_kind(alloc, handler, &[], &mut kinds)?;
    for (index, _answer) in answers.iter().enumerate() {
        let (before, _) = answers.split_at(index + 1);
        put_kind(alloc, handler, before, &mut kinds)?;
    }
    Ok(kinds)
}

/// The kinds of the calls of the handler of this name behind these answers.
pub fn calls(alloc: Global, name: &str, words: &str) -> Option<String> {
    let handler = BuiltIn::from_name(alloc, name.as_bytes())?;
    let answers = answers(alloc, words)?;
    let kinds = kinds(alloc, &handler, answers.as_slice());
    drop(answers);
    kinds.ok()
}

fn value(alloc: Global, value: &NonEmptyValue) -> Option<String> {
    match value {
        NonEmptyValue::Success(bytes) => {
            let text = str::from_utf8(bytes.as_slice()).ok()?;
            format!(in alloc; "success {text}").ok()
        }
        NonEmptyValue::Failure(failure) => {
            format!(in alloc; "failure {} {}", failure.code, failure.message).ok()
        }
    }
}

/// What a call puts out.
fn output_of(alloc: Global, call: &Call) -> Option<String> {
    match call {
        Call::Output { value: output, .. } => value(alloc, output),
        _other => None,
    }
}

/// What the handler of this name puts out behind these answers.
pub fn output(alloc: Global, name: &str, words: &str) -> Option<String> {
    let handler = BuiltIn::from_name(alloc, name.as_bytes())?;
    let answers = answers(alloc, words)?;
    let call = call_behind(alloc, &handler, answers.as_slice());
    drop(answers);
    let call = call.ok()?;
    let told = output_of(alloc, &call);
    drop(call);
    told
}
