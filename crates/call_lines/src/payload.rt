//! The words of calls that have a payload, whose bytes may be said to differ from one attempt to the next.

ghost use Rattle.std.specs.Prelude.{map};
ghost use Rattle.script_lines.specs.LineReader.{Gives};
ghost use Rattle.call_lines.specs.PayloadReader.{call_of, called_of, complete_awakeable_of, complete_promise_of, get_of, output_call_of, payload_call_of, send_of, set_of};

use crate::command::PayloadWord;
use crate::target::parse_target;
use crate::word::{parse_name, parse_optional, parse_time, parse_value};
use bytes::{ByteStr, Bytes};
use journal_model::{Call, PayloadOptions, Target};
use script_lines::word::LineError;
use server_lines::word::{parse_bytes, parse_text};
use std::alloc::Global;

#[tactic(auto, unfolding(crate::specs::PayloadReader::get_of, script_lines::specs::LineReader::then_read))]
fn parse_get(alloc: Global, options: PayloadOptions, words: &[&[u8]]) -> Result<Call, LineError>
    ensures { Gives result (get_of options (map (λ word. word.now) words.now)) }
{
    let [key, name @ ..] = words else {
        return Err(LineError::NotUnderstood);
    };
    let key = parse_text(alloc, key)?;
    let name = parse_name(alloc, name)?;
    Ok(Call::StateGet { key, name, options })
}

#[tactic(auto, unfolding(crate::specs::PayloadReader::set_of, script_lines::specs::LineReader::then_read))]
fn parse_set(alloc: Global, options: PayloadOptions, words: &[&[u8]]) -> Result<Call, LineError>
    ensures { Gives result (set_of options (map (λ word. word.now) words.now)) }
{
    let [key, value, name @ ..] = words else {
        return Err(LineError::NotUnderstood);
    };
    let key = parse_text(alloc, key)?;
    let value = parse_bytes(alloc, value)?;
    let name = parse_name(alloc, name)?;
    Ok(Call::StateSet {
        key,
        value,
        name,
        options,
    })
}

// Whom a call or a send is for, its payload, and its name.
#[tactic(auto, unfolding(crate::specs::PayloadReader::called_of, script_lines::specs::LineReader::then_read))]
fn parse_called(
    alloc: Global,
    words: &[&[u8]],
) -> Result<(Target, Bytes, Option<ByteStr>), LineError>
    ensures { Gives result (called_of (map (λ word. word.now) words.now)) }
{
    let [
        service,
        handler,
        key,
        idempotency_key,
        scope,
        limit_key,
        input,
        name,
        headers @ ..,
    ] = words
    else {
        return Err(LineError::NotUnderstood);
    };
    let input = parse_bytes(alloc, input)?;
    let name = parse_optional(alloc, name)?;
    let target = parse_target(
        alloc,
        service,
        handler,
        key,
        idempotency_key,
        scope,
        limit_key,
        headers,
    )?;
    Ok((target, input, name))
}

#[tactic(auto, unfolding(crate::specs::PayloadReader::call_of, script_lines::specs::LineReader::then_read))]
fn parse_call(alloc: Global, options: PayloadOptions, words: &[&[u8]]) -> Result<Call, LineError>
    ensures { Gives result (call_of options (map (λ word. word.now) words.now)) }
{
    let (target, input, name) = parse_called(alloc, words)?;
    Ok(Call::Call {
        target,
        input,
        name,
        options,
    })
}

#[tactic(auto, unfolding(crate::specs::PayloadReader::send_of, script_lines::specs::LineReader::then_read))]
fn parse_send(alloc: Global, options: PayloadOptions, words: &[&[u8]]) -> Result<Call, LineError>
    ensures { Gives result (send_of options (map (λ word. word.now) words.now)) }
{
    let [time, called @ ..] = words else {
        return Err(LineError::NotUnderstood);
    };
    let execution_time = parse_time(time).ok_or(LineError::NotUnderstood)?;
    let (target, input, name) = parse_called(alloc, called)?;
    Ok(Call::Send {
        target,
        input,
        execution_time,
        name,
        options,
    })
}

#[tactic(auto, unfolding(crate::specs::PayloadReader::complete_awakeable_of, script_lines::specs::LineReader::then_read))]
fn parse_complete_awakeable(
    alloc: Global,
    options: PayloadOptions,
    words: &[&[u8]],
) -> Result<Call, LineError>
    ensures { Gives result (complete_awakeable_of options (map (λ word. word.now) words.now)) }
{
    let [id, value @ ..] = words else {
        return Err(LineError::NotUnderstood);
    };
    let id = parse_text(alloc, id)?;
    let value = parse_value(alloc, value)?;
    Ok(Call::CompleteAwakeable { id, value, options })
}

#[tactic(auto, unfolding(crate::specs::PayloadReader::complete_promise_of, script_lines::specs::LineReader::then_read))]
fn parse_complete_promise(
    alloc: Global,
    options: PayloadOptions,
    words: &[&[u8]],
) -> Result<Call, LineError>
    ensures { Gives result (complete_promise_of options (map (λ word. word.now) words.now)) }
{
    let [key, value @ ..] = words else {
        return Err(LineError::NotUnderstood);
    };
    let key = parse_text(alloc, key)?;
    let value = parse_value(alloc, value)?;
    Ok(Call::CompletePromise {
        key,
        value,
        options,
    })
}

#[tactic(auto, unfolding(crate::specs::PayloadReader::output_call_of, script_lines::specs::LineReader::then_read))]
fn parse_output(alloc: Global, options: PayloadOptions, words: &[&[u8]]) -> Result<Call, LineError>
    ensures { Gives result (output_call_of options (map (λ word. word.now) words.now)) }
{
    let value = parse_value(alloc, words)?;
    Ok(Call::Output { value, options })
}

/// The call of this word that the words behind it spell.
#[tactic(auto, unfolding(crate::specs::PayloadReader::payload_call_of))]
pub fn parse_payload_call(
    alloc: Global,
    word: PayloadWord,
    options: PayloadOptions,
    words: &[&[u8]],
) -> Result<Call, LineError>
    ensures { Gives result (payload_call_of word options (map (λ word. word.now) words.now)) }
{
    match word {
        PayloadWord::Get => parse_get(alloc, options, words),
        PayloadWord::Set => parse_set(alloc, options, words),
        PayloadWord::Call => parse_call(alloc, options, words),
        PayloadWord::Send => parse_send(alloc, options, words),
        PayloadWord::CompleteAwakeable => parse_complete_awakeable(alloc, options, words),
        PayloadWord::CompletePromise => parse_complete_promise(alloc, options, words),
        PayloadWord::Output => parse_output(alloc, options, words),
    }
}
