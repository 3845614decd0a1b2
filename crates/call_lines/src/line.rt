//! What a client says, a line each.

ghost use Rattle.std.specs.Prelude.{◌≡◌, map, IfOk};
ghost use Rattle.script_lines.specs.LineReader.{Gives};
ghost use Rattle.call_lines.specs.LineReader.{arguments_of, asked_of, attempt_of, client_line_of, do_of, go_of, is_of_host, line_spelled, outcome_line_of, request_line_of, suspend_of};

use crate::call::{Said, parse_said};
use crate::command::{LineWord, parse_line_word};
use crate::outcome::{SaidOutcome, parse_outcome};
use bytes::ByteStr;
use script_lines::word::{LineError, parse_u32, parse_u64};
use server_lines::request::{Request, parse_request, words_between};
use server_lines::word::parse_text;
use std::alloc::{AllocError, Global};

/// A line of a client that is understood. `id` names an invocation, `attempt` one of its attempts.
#[derive(Drop)]
pub enum ClientLine {
    /// Begins an attempt at a moment, in milliseconds.
    Attempt {
        id: ByteStr,
        now: u64,
    },
    /// Says the next call of the attempt.
    Do {
        id: ByteStr,
        attempt: u32,
        said: Said,
    },
    /// Tells how the body of the run of this handle has ended.
    Outcome {
        id: ByteStr,
        attempt: u32,
        handle: u32,
        outcome: SaidOutcome,
    },
    /// Goes on with what the attempt awaits.
    Go {
        id: ByteStr,
        attempt: u32,
    },
    /// The same, and suspends it once nothing more can come now.
    Suspend {
        id: ByteStr,
        attempt: u32,
    },
    /// Asks, or brings something from outside. It is no request by which a host drives an attempt: `begin`, `input`, `output` or `close`.
    Asks(Request),
}

#[tactic(auto, unfolding(crate::specs::LineReader::attempt_of, script_lines::specs::LineReader::then_read))]
fn parse_attempt(alloc: Global, words: &[&[u8]]) -> Result<ClientLine, LineError>
    ensures { Gives result (attempt_of (map (λ word. word.now) words.now)) }
{
    let [id, now] = words else {
        return Err(LineError::NotUnderstood);
    };
    let now = parse_u64(now).ok_or(LineError::NotUnderstood)?;
    let id = parse_text(alloc, id)?;
    Ok(ClientLine::Attempt { id, now })
}

#[tactic(auto, unfolding(crate::specs::LineReader::do_of, script_lines::specs::LineReader::then_read))]
fn parse_do(alloc: Global, words: &[&[u8]]) -> Result<ClientLine, LineError>
    ensures { Gives result (do_of (map (λ word. word.now) words.now)) }
{
    let [id, attempt, said @ ..] = words else {
        return Err(LineError::NotUnderstood);
    };
    let attempt = parse_u32(attempt).ok_or(LineError::NotUnderstood)?;
    let id = parse_text(alloc, id)?;
    let said = parse_said(alloc, said)?;
    Ok(ClientLine::Do { id, attempt, said })
}

#[tactic(auto, unfolding(crate::specs::LineReader::outcome_line_of, script_lines::specs::LineReader::then_read))]
fn parse_outcome_line(alloc: Global, words: &[&[u8]]) -> Result<ClientLine, LineError>
    ensures { Gives result (outcome_line_of (map (λ word. word.now) words.now)) }
{
    let [id, attempt, handle, outcome @ ..] = words else {
        return Err(LineError::NotUnderstood);
    };
    let attempt = parse_u32(attempt).ok_or(LineError::NotUnderstood)?;
    let handle = parse_u32(handle).ok_or(LineError::NotUnderstood)?;
    let id = parse_text(alloc, id)?;
    let outcome = parse_outcome(alloc, outcome)?;
    Ok(ClientLine::Outcome {
        id,
        attempt,
        handle,
        outcome,
    })
}

#[tactic(auto, unfolding(crate::specs::LineReader::go_of, script_lines::specs::LineReader::then_read))]
fn parse_go(alloc: Global, words: &[&[u8]]) -> Result<ClientLine, LineError>
    ensures { Gives result (go_of (map (λ word. word.now) words.now)) }
{
    let [id, attempt] = words else {
        return Err(LineError::NotUnderstood);
    };
    let attempt = parse_u32(attempt).ok_or(LineError::NotUnderstood)?;
    let id = parse_text(alloc, id)?;
    Ok(ClientLine::Go { id, attempt })
}

#[tactic(auto, unfolding(crate::specs::LineReader::suspend_of, script_lines::specs::LineReader::then_read))]
fn parse_suspend(alloc: Global, words: &[&[u8]]) -> Result<ClientLine, LineError>
    ensures { Gives result (suspend_of (map (λ word. word.now) words.now)) }
{
    let [id, attempt] = words else {
        return Err(LineError::NotUnderstood);
    };
    let attempt = parse_u32(attempt).ok_or(LineError::NotUnderstood)?;
    let id = parse_text(alloc, id)?;
    Ok(ClientLine::Suspend { id, attempt })
}

/// What this word begins, by the words behind it.
#[tactic(auto, unfolding(crate::specs::LineReader::arguments_of))]
fn parse_arguments(alloc: Global, word: LineWord, words: &[&[u8]]) -> Result<ClientLine, LineError>
    ensures { Gives result (arguments_of word (map (λ word. word.now) words.now)) }
{
    match word {
        LineWord::Attempt => parse_attempt(alloc, words),
        LineWord::Do => parse_do(alloc, words),
        LineWord::Outcome => parse_outcome_line(alloc, words),
        LineWord::Go => parse_go(alloc, words),
        LineWord::Suspend => parse_suspend(alloc, words),
    }
}

/// Whether it is a request by which a host drives an attempt.
fn is_of_host(request: &Request) -> bool
    ensures { result ≡ is_of_host request.now }
{
    match request {
        Request::Begin { .. }
        | Request::Input { .. }
        | Request::Output { .. }
        | Request::Close { .. } => true,
        _ => false,
    }
}

#[tactic(auto, unfolding(crate::specs::LineReader::asked_of))]
fn asked(request: Request) -> Result<ClientLine, LineError>
    ensures { Gives result (asked_of request) }
{
    if is_of_host(&request) {
        drop(request);
        Err(LineError::NotUnderstood)
    } else {
        Ok(ClientLine::Asks(request))
    }
}

#[tactic(auto, unfolding(crate::specs::LineReader::request_line_of, script_lines::specs::LineReader::then_read))]
fn parse_asked(alloc: Global, line: &[u8]) -> Result<ClientLine, LineError>
    ensures { Gives result (request_line_of line.now) }
{
    let request = parse_request(alloc, line)?;
    asked(request.ok_or(LineError::NotUnderstood)?)
}

/// What a line says whose words are these.
#[tactic(auto, unfolding(crate::specs::LineReader::line_spelled, crate::specs::LineReader::line_by))]
fn parse_words(alloc: Global, line: &[u8], words: &[&[u8]]) -> Result<ClientLine, LineError>
    ensures { Gives result (line_spelled line.now (map (λ word. word.now) words.now)) }
{
    let [word, others @ ..] = words else {
        return Err(LineError::NotUnderstood);
    };
    match parse_line_word(word) {
        Some(word) => parse_arguments(alloc, word, others),
        None => parse_asked(alloc, line),
    }
}

/// What a line says, without its line feed; `None` where it says nothing.
pub fn parse_client_line(alloc: Global, line: &[u8]) -> Result<Option<ClientLine>, AllocError>
    ensures { IfOk result (λ read. read ≡ client_line_of line.now) }
{
    let words = words_between(alloc, line)?;
    match parse_words(alloc, line, &words) {
        Ok(read) => Ok(Some(read)),
        Err(LineError::NotUnderstood) => Ok(None),
        Err(LineError::Memory) => Err(AllocError),
    }
}
