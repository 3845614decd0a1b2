//! How an attempt at the body of a run ends: `ok:HEX`, `fail:CODE:TEXT`, `metadata`, a failure that has some, `retry:CODE:TEXT:MILLIS`, an
//! error behind so long, and `pause:CODE:TEXT:MILLIS`, one that asks for a pause. And how the run is tried again: `infinite`, `none`,
//! `fixed INTERVAL ATTEMPTS DURATION THEN` and `exponential FIRST NUMERATOR/DENOMINATOR ATTEMPTS MOST DURATION THEN`. Lengths are in
//! milliseconds, `-` is none, and `THEN` is `fails` or `pauses`.
use crate::operands::{byte_str, bytes, failure};
use invocation_vm::{
    Error, Factor, InvocationErrorCode, OnMaxAttempts, RetryPolicy, RunExitResult, Sequence,
    TerminalFailure,
};
use std::alloc::Global;
use std::time::Duration;
use test_rows::number;

/// So many milliseconds.
pub fn millis(word: &str) -> Option<Duration> {
    let millis: u64 = word.parse().ok()?;
    Some(Duration::from_millis(millis))
}

fn millis_or_none(word: &str) -> Option<Option<Duration>> {
    if word == "-" {
        return Some(None);
    }
    Some(Some(millis(word)?))
}

fn number_or_none(word: &str) -> Option<Option<u32>> {
    if word == "-" {
        return Some(None);
    }
    Some(Some(number(word)?))
}

fn then(word: &str) -> Option<OnMaxAttempts> {
    match word {
        "fails" => Some(OnMaxAttempts::FailAsTerminal),
        "pauses" => Some(OnMaxAttempts::Pause),
        _ => None,
    }
}

fn factor(word: &str) -> Option<Factor> {
    let mut terms = word.split('/');
    let numerator = number(terms.next()?)?;
    let denominator = number(terms.next()?)?;
    Factor::new(numerator, denominator)
}

/// How a run is tried again.
pub fn policy(words: &[&str]) -> Option<RetryPolicy> {
    match words {
        ["infinite"] => Some(RetryPolicy::Infinite),
        ["none"] => Some(RetryPolicy::None),
        ["fixed", interval, attempts, duration, bound] => Some(RetryPolicy::fixed_delay(
            millis_or_none(*interval)?,
            number_or_none(*attempts)?,
            millis_or_none(*duration)?,
            then(*bound)?,
        )),
        ["exponential", first, by, attempts, most, duration, bound] => {
            Some(RetryPolicy::exponential(
                millis(*first)?,
                factor(*by)?,
                number_or_none(*attempts)?,
                millis_or_none(*most)?,
                millis_or_none(*duration)?,
                then(*bound)?,
            ))
        }
        _ => None,
    }
}

fn terminal(alloc: Global, code: &str, message: &str) -> Option<TerminalFailure> {
    Some(TerminalFailure {
        code: code.parse().ok()?,
        message: byte_str(alloc, message)?,
        metadata: Sequence::new(alloc),
    })
}

fn error(alloc: Global, code: &str, message: &str) -> Option<Error> {
    let code: u16 = code.parse().ok()?;
    let message = byte_str(alloc, message)?;
    Some(Error::new(InvocationErrorCode::new(code), message))
}

/// How an attempt at the body has ended.
pub fn exit(alloc: Global, word: &str) -> Option<RunExitResult> {
    let words: Vec<&str> = word.split(':').collect(alloc).ok()?;
    match words.as_slice() {
        ["ok", value] => Some(RunExitResult::Success(bytes(alloc, *value)?)),
        ["fail", code, message] => Some(RunExitResult::TerminalFailure(terminal(
            alloc, *code, *message,
        )?)),
        ["metadata"] => Some(RunExitResult::TerminalFailure(failure(alloc)?)),
        ["retry", code, message, took] => Some(RunExitResult::RetryableFailure {
            attempt_duration: millis(*took)?,
            error: error(alloc, *code, *message)?,
        }),
        ["pause", code, message, took] => Some(RunExitResult::RetryableFailure {
            attempt_duration: millis(*took)?,
            error: error(alloc, *code, *message)?.with_should_pause(),
        }),
        _ => None,
    }
}
