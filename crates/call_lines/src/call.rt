//! The words of a call.

ghost use Rattle.std.specs.Prelude.{map};
ghost use Rattle.script_lines.specs.LineReader.{Gives};
ghost use Rattle.call_lines.specs.CallReader.{attach_of, awakeable_of, await_of, cancel_of, clear_all_of, clear_of, complete_signal_of, completed_of, end_of, handle_of, keys_of, one_text_of, output_of_of, peek_promise_of, plain_call_of, promise_of, run_of, said_of, signal_of, sleep_of, stable_of, take_of, unstable_of, wait_of};

use crate::command::{PlainWord, parse_payload_word, parse_plain_word};
use crate::payload::parse_payload_call;
use crate::target::parse_attached;
use crate::tree::parse_tree;
use crate::word::{parse_moment, parse_name, parse_name_or_empty, parse_value};
use bytes::ByteStr;
use journal_model::{AwaitedFuture, Call, NotificationHandle, PayloadOptions};
use script_lines::word::{LineError, parse_u32};
use server_lines::word::parse_text;
use std::alloc::Global;

/// What a client says next.
#[derive(Drop)]
pub enum Said {
    /// A call. An await among them is suspended once nothing more can come now.
    Call(Call),
    /// An await that is left open then.
    Wait(AwaitedFuture),
}

/// The one text that the words spell.
#[tactic(auto, unfolding(crate::specs::CallReader::one_text_of))]
fn parse_one_text(alloc: Global, words: &[&[u8]]) -> Result<ByteStr, LineError>
    ensures { Gives result (one_text_of (map (λ word. word.now) words.now)) }
{
    match words {
        [text] => parse_text(alloc, text),
        _ => Err(LineError::NotUnderstood),
    }
}

/// The one handle that the words spell.
#[tactic(auto, unfolding(crate::specs::CallReader::handle_of, script_lines::specs::LineReader::then_read))]
fn parse_handle(words: &[&[u8]]) -> Result<NotificationHandle, LineError>
    ensures { Gives result (handle_of (map (λ word. word.now) words.now)) }
{
    let [handle] = words else {
        return Err(LineError::NotUnderstood);
    };
    let handle = parse_u32(handle).ok_or(LineError::NotUnderstood)?;
    Ok(NotificationHandle::new(handle))
}

#[tactic(auto, unfolding(crate::specs::CallReader::keys_of, script_lines::specs::LineReader::then_read))]
fn parse_keys(alloc: Global, words: &[&[u8]]) -> Result<Said, LineError>
    ensures { Gives result (keys_of (map (λ word. word.now) words.now)) }
{
    let name = parse_name(alloc, words)?;
    Ok(Said::Call(Call::StateGetKeys { name }))
}

#[tactic(auto, unfolding(crate::specs::CallReader::clear_of, script_lines::specs::LineReader::then_read))]
fn parse_clear(alloc: Global, words: &[&[u8]]) -> Result<Said, LineError>
    ensures { Gives result (clear_of (map (λ word. word.now) words.now)) }
{
    let [key, name @ ..] = words else {
        return Err(LineError::NotUnderstood);
    };
    let key = parse_text(alloc, key)?;
    let name = parse_name(alloc, name)?;
    Ok(Said::Call(Call::StateClear { key, name }))
}

#[tactic(auto, unfolding(crate::specs::CallReader::clear_all_of, script_lines::specs::LineReader::then_read))]
fn parse_clear_all(alloc: Global, words: &[&[u8]]) -> Result<Said, LineError>
    ensures { Gives result (clear_all_of (map (λ word. word.now) words.now)) }
{
    let name = parse_name(alloc, words)?;
    Ok(Said::Call(Call::StateClearAll { name }))
}

#[tactic(auto, unfolding(crate::specs::CallReader::sleep_of, script_lines::specs::LineReader::then_read))]
fn parse_sleep(alloc: Global, words: &[&[u8]]) -> Result<Said, LineError>
    ensures { Gives result (sleep_of (map (λ word. word.now) words.now)) }
{
    let [until, name @ ..] = words else {
        return Err(LineError::NotUnderstood);
    };
    let wake_up = parse_moment(until).ok_or(LineError::NotUnderstood)?;
    let name = parse_name_or_empty(alloc, name)?;
    Ok(Said::Call(Call::Sleep {
        name,
        wake_up,
        now: None,
    }))
}

#[tactic(auto, unfolding(crate::specs::CallReader::awakeable_of))]
fn parse_awakeable(words: &[&[u8]]) -> Result<Said, LineError>
    ensures { Gives result (awakeable_of (map (λ word. word.now) words.now)) }
{
    match words {
        [] => Ok(Said::Call(Call::Awakeable)),
        _ => Err(LineError::NotUnderstood),
    }
}

#[tactic(auto, unfolding(crate::specs::CallReader::signal_of, script_lines::specs::LineReader::then_read))]
fn parse_signal(alloc: Global, words: &[&[u8]]) -> Result<Said, LineError>
    ensures { Gives result (signal_of (map (λ word. word.now) words.now)) }
{
    let name = parse_one_text(alloc, words)?;
    Ok(Said::Call(Call::Signal { name }))
}

#[tactic(auto, unfolding(crate::specs::CallReader::complete_signal_of, script_lines::specs::LineReader::then_read))]
fn parse_complete_signal(alloc: Global, words: &[&[u8]]) -> Result<Said, LineError>
    ensures { Gives result (complete_signal_of (map (λ word. word.now) words.now)) }
{
    let [target_id, name, value @ ..] = words else {
        return Err(LineError::NotUnderstood);
    };
    let target_id = parse_text(alloc, target_id)?;
    let name = parse_text(alloc, name)?;
    let value = parse_value(alloc, value)?;
    Ok(Said::Call(Call::CompleteSignal {
        target_id,
        name,
        value,
    }))
}

#[tactic(auto, unfolding(crate::specs::CallReader::promise_of, script_lines::specs::LineReader::then_read))]
fn parse_promise(alloc: Global, words: &[&[u8]]) -> Result<Said, LineError>
    ensures { Gives result (promise_of (map (λ word. word.now) words.now)) }
{
    let key = parse_one_text(alloc, words)?;
    Ok(Said::Call(Call::GetPromise { key }))
}

#[tactic(auto, unfolding(crate::specs::CallReader::peek_promise_of, script_lines::specs::LineReader::then_read))]
fn parse_peek_promise(alloc: Global, words: &[&[u8]]) -> Result<Said, LineError>
    ensures { Gives result (peek_promise_of (map (λ word. word.now) words.now)) }
{
    let key = parse_one_text(alloc, words)?;
    Ok(Said::Call(Call::PeekPromise { key }))
}

#[tactic(auto, unfolding(crate::specs::CallReader::run_of, script_lines::specs::LineReader::then_read))]
fn parse_run(alloc: Global, words: &[&[u8]]) -> Result<Said, LineError>
    ensures { Gives result (run_of (map (λ word. word.now) words.now)) }
{
    let name = parse_name_or_empty(alloc, words)?;
    Ok(Said::Call(Call::Run { name }))
}

#[tactic(auto, unfolding(crate::specs::CallReader::cancel_of, script_lines::specs::LineReader::then_read))]
fn parse_cancel(alloc: Global, words: &[&[u8]]) -> Result<Said, LineError>
    ensures { Gives result (cancel_of (map (λ word. word.now) words.now)) }
{
    let target_id = parse_one_text(alloc, words)?;
    Ok(Said::Call(Call::Cancel { target_id }))
}

#[tactic(auto, unfolding(crate::specs::CallReader::attach_of, script_lines::specs::LineReader::then_read))]
fn parse_attach(alloc: Global, words: &[&[u8]]) -> Result<Said, LineError>
    ensures { Gives result (attach_of (map (λ word. word.now) words.now)) }
{
    let target = parse_attached(alloc, words)?;
    Ok(Said::Call(Call::Attach(target)))
}

#[tactic(auto, unfolding(crate::specs::CallReader::output_of_of, script_lines::specs::LineReader::then_read))]
fn parse_output_of(alloc: Global, words: &[&[u8]]) -> Result<Said, LineError>
    ensures { Gives result (output_of_of (map (λ word. word.now) words.now)) }
{
    let target = parse_attached(alloc, words)?;
    Ok(Said::Call(Call::GetOutput(target)))
}

#[tactic(auto, unfolding(crate::specs::CallReader::completed_of, script_lines::specs::LineReader::then_read))]
fn parse_completed(words: &[&[u8]]) -> Result<Said, LineError>
    ensures { Gives result (completed_of (map (λ word. word.now) words.now)) }
{
    let handle = parse_handle(words)?;
    Ok(Said::Call(Call::IsCompleted(handle)))
}

#[tactic(auto, unfolding(crate::specs::CallReader::take_of, script_lines::specs::LineReader::then_read))]
fn parse_take(words: &[&[u8]]) -> Result<Said, LineError>
    ensures { Gives result (take_of (map (λ word. word.now) words.now)) }
{
    let handle = parse_handle(words)?;
    Ok(Said::Call(Call::Take(handle)))
}

#[tactic(auto, unfolding(crate::specs::CallReader::await_of, script_lines::specs::LineReader::then_read))]
fn parse_await(alloc: Global, words: &[&[u8]]) -> Result<Said, LineError>
    ensures { Gives result (await_of (map (λ word. word.now) words.now)) }
{
    let future = parse_tree(alloc, words)?;
    Ok(Said::Call(Call::Await(future)))
}

#[tactic(auto, unfolding(crate::specs::CallReader::wait_of, script_lines::specs::LineReader::then_read))]
fn parse_wait(alloc: Global, words: &[&[u8]]) -> Result<Said, LineError>
    ensures { Gives result (wait_of (map (λ word. word.now) words.now)) }
{
    let future = parse_tree(alloc, words)?;
    Ok(Said::Wait(future))
}

#[tactic(auto, unfolding(crate::specs::CallReader::end_of))]
fn parse_end(words: &[&[u8]]) -> Result<Said, LineError>
    ensures { Gives result (end_of (map (λ word. word.now) words.now)) }
{
    match words {
        [] => Ok(Said::Call(Call::End)),
        _ => Err(LineError::NotUnderstood),
    }
}

/// What this word begins, by the words behind it.
#[tactic(auto, unfolding(crate::specs::CallReader::plain_call_of))]
fn parse_plain_call(alloc: Global, word: PlainWord, words: &[&[u8]]) -> Result<Said, LineError>
    ensures { Gives result (plain_call_of word (map (λ word. word.now) words.now)) }
{
    match word {
        PlainWord::Keys => parse_keys(alloc, words),
        PlainWord::Clear => parse_clear(alloc, words),
        PlainWord::ClearAll => parse_clear_all(alloc, words),
        PlainWord::Sleep => parse_sleep(alloc, words),
        PlainWord::Awakeable => parse_awakeable(words),
        PlainWord::Signal => parse_signal(alloc, words),
        PlainWord::CompleteSignal => parse_complete_signal(alloc, words),
        PlainWord::Promise => parse_promise(alloc, words),
        PlainWord::PeekPromise => parse_peek_promise(alloc, words),
        PlainWord::Run => parse_run(alloc, words),
        PlainWord::Cancel => parse_cancel(alloc, words),
        PlainWord::Attach => parse_attach(alloc, words),
        PlainWord::OutputOf => parse_output_of(alloc, words),
        PlainWord::Completed => parse_completed(words),
        PlainWord::Take => parse_take(words),
        PlainWord::Await => parse_await(alloc, words),
        PlainWord::Wait => parse_wait(alloc, words),
        PlainWord::End => parse_end(words),
    }
}

/// A call whose payload's bytes may differ.
#[tactic(auto, unfolding(crate::specs::CallReader::unstable_of, script_lines::specs::LineReader::then_read))]
fn parse_unstable(alloc: Global, words: &[&[u8]]) -> Result<Said, LineError>
    ensures { Gives result (unstable_of (map (λ word. word.now) words.now)) }
{
    let [word, others @ ..] = words else {
        return Err(LineError::NotUnderstood);
    };
    let word = parse_payload_word(word).ok_or(LineError::NotUnderstood)?;
    let options = PayloadOptions::unstable_serialization();
    let call = parse_payload_call(alloc, word, options, others)?;
    Ok(Said::Call(call))
}

/// Another one.
#[tactic(auto, unfolding(crate::specs::CallReader::stable_of, crate::specs::CallReader::payload_or, script_lines::specs::LineReader::then_read))]
fn parse_stable(alloc: Global, word: &[u8], others: &[&[u8]]) -> Result<Said, LineError>
    ensures { Gives result (stable_of word.now (map (λ word. word.now) others.now)) }
{
    if let Some(word) = parse_payload_word(word) {
        let options = PayloadOptions::stable_serialization();
        let call = parse_payload_call(alloc, word, options, others)?;
        return Ok(Said::Call(call));
    }
    let word = parse_plain_word(word).ok_or(LineError::NotUnderstood)?;
    parse_plain_call(alloc, word, others)
}

/// What the last words of a line say: a word and what it is about. `unstable` before it says that its payload's bytes may differ.
#[tactic(auto, unfolding(crate::specs::CallReader::said_of))]
pub fn parse_said(alloc: Global, words: &[&[u8]]) -> Result<Said, LineError>
    ensures { Gives result (said_of (map (λ word. word.now) words.now)) }
{
    let [word, others @ ..] = words else {
        return Err(LineError::NotUnderstood);
    };
    if *word == b"unstable".as_slice() {
        parse_unstable(alloc, others)
    } else {
        parse_stable(alloc, word, others)
    }
}
