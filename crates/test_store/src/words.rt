//! Words of a line, as values.
use crate::fault::Fault;
use bytes::{ByteStr, Bytes};
use journal_store::{Failure, NewInvocation, NotificationResult, SignalKey, StateMode};
use sequence::Sequence;
use std::alloc::Global;
use test_rows::{bytes, text};

/// The text that a word is.
pub fn parse_text(alloc: Global, word: &str) -> Result<ByteStr, Fault> {
    Ok(ByteStr::copy_from_str(alloc, text(word))?)
}

/// The bytes that a word spells, two hexadecimal digits each.
pub fn parse_bytes(alloc: Global, word: &str) -> Result<Vec<u8>, Fault> {
    bytes(alloc, word).ok_or(Fault::NotUnderstood)
}

fn parse_failure(alloc: Global, word: &str) -> Result<NotificationResult, Fault> {
    let Some((code, message)) = word.split_once(':') else {
        return Err(Fault::NotUnderstood);
    };
    let code = code.parse()?;
    Ok(NotificationResult::Failure(Failure {
        code,
        message: ByteStr::copy_from_str(alloc, message)?,
        metadata: Sequence::new(alloc),
    }))
}

/// What comes from outside: `void`, `v:TEXT`, `f:CODE:TEXT` or `id:TEXT`.
pub fn parse_result(alloc: Global, word: &str) -> Result<NotificationResult, Fault> {
    match word.split_once(':') {
        None if word == "void" => Ok(NotificationResult::Void),
        Some(("v", text)) => {
            let value = Bytes::copy_from_slice(alloc, text.as_bytes())?;
            Ok(NotificationResult::Value(value))
        }
        Some(("id", text)) => {
            let id = ByteStr::copy_from_str(alloc, text)?;
            Ok(NotificationResult::InvocationId(id))
        }
        Some(("f", failure)) => parse_failure(alloc, failure),
        _ => Err(Fault::NotUnderstood),
    }
}

/// The key of a signal: `#N`, or its name.
pub fn parse_key(alloc: Global, word: &str) -> Result<SignalKey, Fault> {
    match word.strip_prefix('#') {
        Some(number) => Ok(SignalKey::ByIndex(number.parse()?)),
        None => Ok(SignalKey::ByName(parse_text(alloc, word)?)),
    }
}

fn parse_state(word: &str) -> Result<StateMode, Fault> {
    match word {
        "whole" => Ok(StateMode::Whole),
        "none" => Ok(StateMode::None),
        _ => Err(Fault::NotUnderstood),
    }
}

/// The words of a new invocation behind its id and its object.
#[derive(Clone, Copy)]
struct Rest<'a> {
    version: u32,
    state: StateMode,
    seed: u64,
    input: &'a str,
}

fn parse_rest<'a>(words: &[&'a str]) -> Result<Rest<'a>, Fault> {
    let [version, state, seed, input] = *words else {
        return Err(Fault::NotUnderstood);
    };
    Ok(Rest {
        version: version.parse()?,
        state: parse_state(state)?,
        seed: seed.parse()?,
        input: text(input),
    })
}

/// A new invocation without headers: ID OBJECT VERSION MODE SEED INPUT, the input as text.
pub fn parse_new(alloc: Global, words: &[&str]) -> Result<NewInvocation, Fault> {
    let [id, object, rest @ ..] = words else {
        return Err(Fault::NotUnderstood);
    };
    let rest = parse_rest(rest)?;
    Ok(NewInvocation {
        id: parse_text(alloc, id)?,
        object: parse_text(alloc, object)?,
        input: Bytes::copy_from_slice(alloc, rest.input.as_bytes())?,
        headers: Sequence::new(alloc),
        version: rest.version,
        seed: rest.seed,
        state: rest.state,
    })
}
