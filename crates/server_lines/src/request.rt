//! What a program asks of the store's process, a line each.

ghost use Rattle.std.specs.Prelude.{◌≡◌, ◌==◌, map, IfOk};
ghost use Rattle.std.specs.List.{slice_split};
ghost use Rattle.script_lines.specs.LineReader.{Gives};
ghost use Rattle.server_lines.specs.declared.request.Request.TheVariants as asked;
ghost use Rattle.server_lines.specs.RequestReader.{answer_of, begin_of, cancel_of, close_of, due_after_of, due_one_of, error_of, forget_of, header_read, headers_of, ids_of, input_of, invoke_of, list_of, of_due, of_invoke, of_list, of_none, of_one, of_three, of_two, output_request, request_spelled, request_of, requests_of, result_request_of, show_of, signal_of, state_of, stop_request_of, tick_of};

use crate::command::{Command, parse_command};
use crate::word::{parse_bytes, parse_digits, parse_key, parse_text, parse_value};
use bytes::{ByteStr, Bytes};
use journal_model::{Header, NewInvocation, NotificationResult, SignalKey};
use script_lines::word::{LineError, parse_mode, parse_u32, parse_u64};
use sequence::Sequence;
use std::alloc::{AllocError, Global};

/// A request that is understood. `id` names an invocation, `attempt` one of its attempts.
#[derive(Drop)]
pub enum Request {
    /// Makes an invocation.
    Invoke(NewInvocation),
    /// Brings what a request of an invocation was made for, by the number that its completion has.
    Result {
        id: ByteStr,
        completion: u32,
        value: NotificationResult,
    },
    /// Brings a signal.
    Signal {
        id: ByteStr,
        key: SignalKey,
        value: NotificationResult,
    },
    /// Cancels an invocation.
    Cancel {
        id: ByteStr,
    },
    /// Lets it be this moment, in milliseconds.
    Tick {
        now: u64,
    },
    /// Begins an attempt at a moment, in milliseconds.
    Begin {
        id: ByteStr,
        now: u64,
    },
    /// Asks for the next bytes of the attempt's input, at most so many.
    Input {
        id: ByteStr,
        attempt: u32,
        most: u32,
    },
    /// Brings the next bytes of the attempt's output.
    Output {
        id: ByteStr,
        attempt: u32,
        bytes: Bytes,
    },
    /// Tells that the attempt asks for no more input.
    Close {
        id: ByteStr,
        attempt: u32,
    },
    /// Ends the attempt.
    Stop {
        id: ByteStr,
        attempt: u32,
    },
    /// Forgets closed invocations, one at least: all of them or none.
    Forget {
        ids: Sequence<ByteStr>,
    },
    /// Asks which invocations are due.
    Due,
    /// Asks whether an invocation is due.
    DueOne {
        id: ByteStr,
    },
    /// Asks which are due of those behind an id, at most so many.
    DueAfter {
        after: ByteStr,
        most: u32,
    },
    /// Asks when the next sleep ends.
    Next,
    /// Asks what is recorded of an invocation.
    Show {
        id: ByteStr,
    },
    /// Asks what an invocation answers, and whether it is open.
    Answer {
        id: ByteStr,
    },
    /// Asks for the state of an object.
    State {
        object: ByteStr,
    },
    /// Asks for the last error that an attempt told.
    Error {
        id: ByteStr,
    },
    /// Asks for invocations by ascending ids: those behind an id, at most so many. No id comes before the empty text, so behind it are all.
    List {
        after: ByteStr,
        most: u32,
    },
    /// Asks what an open invocation has asked of others, and nobody has answered.
    Requests {
        id: ByteStr,
    },
}

/// The header that a name and a value spell.
#[tactic(auto, unfolding(crate::specs::RequestReader::header_read, script_lines::specs::LineReader::then_read))]
fn parse_header(alloc: Global, key: &[u8], value: &[u8]) -> Result<Header, LineError>
    ensures { Gives result (header_read key.now value.now) }
{
    let key = parse_text(alloc, key)?;
    let value = parse_text(alloc, value)?;
    Ok(Header { key, value })
}

/// The headers that words spell, each by its name and its value.
pub fn parse_headers(alloc: Global, words: &[&[u8]]) -> Result<Sequence<Header>, LineError>
    ensures { Gives result (headers_of (map (λ word. word.now) words.now)) }
{
    let mut headers = Sequence::new(alloc);
    let mut left = words;
    while let [key, value, others @ ..] = left {
        let header = parse_header(alloc, key, value)?;
        headers.push(header)?;
        left = others;
    }
    if left.is_empty() {
        Ok(headers)
    } else {
        Err(LineError::NotUnderstood)
    }
}

#[tactic(auto, unfolding(crate::specs::RequestReader::invoke_of, script_lines::specs::LineReader::then_read))]
fn parse_invocation(
    alloc: Global,
    id: &[u8],
    object: &[u8],
    version: &[u8],
    state: &[u8],
    seed: &[u8],
    input: &[u8],
    headers: &[&[u8]],
) -> Result<Request, LineError>
    ensures { Gives result (invoke_of id.now object.now version.now state.now seed.now input.now (map (λ word. word.now) headers.now)) }
{
    let version = parse_u32(version).ok_or(LineError::NotUnderstood)?;
    let state = parse_mode(state).ok_or(LineError::NotUnderstood)?;
    let seed = parse_u64(seed).ok_or(LineError::NotUnderstood)?;
    let id = parse_text(alloc, id)?;
    let object = parse_text(alloc, object)?;
    let input = parse_bytes(alloc, input)?;
    let headers = parse_headers(alloc, headers)?;
    Ok(Request::Invoke(NewInvocation {
        id,
        object,
        input,
        headers,
        version,
        seed,
        state,
    }))
}

#[tactic(auto, unfolding(crate::specs::RequestReader::of_invoke))]
fn parse_invoke(alloc: Global, arguments: &[&[u8]]) -> Result<Request, LineError>
    ensures { Gives result (of_invoke (map (λ word. word.now) arguments.now)) }
{
    let [id, object, version, state, seed, input, headers @ ..] = arguments else {
        return Err(LineError::NotUnderstood);
    };
    parse_invocation(alloc, id, object, version, state, seed, input, headers)
}

#[tactic(auto, unfolding(crate::specs::RequestReader::of_three, crate::specs::RequestReader::result_request_of, script_lines::specs::LineReader::then_read))]
fn parse_result(alloc: Global, arguments: &[&[u8]]) -> Result<Request, LineError>
    ensures { Gives result (of_three result_request_of (map (λ word. word.now) arguments.now)) }
{
    let [id, completion, value] = arguments else {
        return Err(LineError::NotUnderstood);
    };
    let completion = parse_u32(completion).ok_or(LineError::NotUnderstood)?;
    let id = parse_text(alloc, id)?;
    let value = parse_value(alloc, value)?;
    Ok(Request::Result {
        id,
        completion,
        value,
    })
}

#[tactic(auto, unfolding(crate::specs::RequestReader::of_three, crate::specs::RequestReader::signal_of, script_lines::specs::LineReader::then_read))]
fn parse_signal(alloc: Global, arguments: &[&[u8]]) -> Result<Request, LineError>
    ensures { Gives result (of_three signal_of (map (λ word. word.now) arguments.now)) }
{
    let [id, key, value] = arguments else {
        return Err(LineError::NotUnderstood);
    };
    let id = parse_text(alloc, id)?;
    let key = parse_key(alloc, key)?;
    let value = parse_value(alloc, value)?;
    Ok(Request::Signal { id, key, value })
}

#[tactic(auto, unfolding(crate::specs::RequestReader::of_one, crate::specs::RequestReader::cancel_of, script_lines::specs::LineReader::then_read))]
fn parse_cancel(alloc: Global, arguments: &[&[u8]]) -> Result<Request, LineError>
    ensures { Gives result (of_one cancel_of (map (λ word. word.now) arguments.now)) }
{
    let [id] = arguments else {
        return Err(LineError::NotUnderstood);
    };
    let id = parse_text(alloc, id)?;
    Ok(Request::Cancel { id })
}

#[tactic(auto, unfolding(crate::specs::RequestReader::of_one, crate::specs::RequestReader::tick_of, script_lines::specs::LineReader::then_read))]
fn parse_tick(arguments: &[&[u8]]) -> Result<Request, LineError>
    ensures { Gives result (of_one tick_of (map (λ word. word.now) arguments.now)) }
{
    let [now] = arguments else {
        return Err(LineError::NotUnderstood);
    };
    let now = parse_u64(now).ok_or(LineError::NotUnderstood)?;
    Ok(Request::Tick { now })
}

#[tactic(auto, unfolding(crate::specs::RequestReader::of_two, crate::specs::RequestReader::begin_of, script_lines::specs::LineReader::then_read))]
fn parse_begin(alloc: Global, arguments: &[&[u8]]) -> Result<Request, LineError>
    ensures { Gives result (of_two begin_of (map (λ word. word.now) arguments.now)) }
{
    let [id, now] = arguments else {
        return Err(LineError::NotUnderstood);
    };
    let now = parse_u64(now).ok_or(LineError::NotUnderstood)?;
    let id = parse_text(alloc, id)?;
    Ok(Request::Begin { id, now })
}

#[tactic(auto, unfolding(crate::specs::RequestReader::of_three, crate::specs::RequestReader::input_of, script_lines::specs::LineReader::then_read))]
fn parse_input(alloc: Global, arguments: &[&[u8]]) -> Result<Request, LineError>
    ensures { Gives result (of_three input_of (map (λ word. word.now) arguments.now)) }
{
    let [id, attempt, most] = arguments else {
        return Err(LineError::NotUnderstood);
    };
    let attempt = parse_u32(attempt).ok_or(LineError::NotUnderstood)?;
    let most = parse_u32(most).ok_or(LineError::NotUnderstood)?;
    let id = parse_text(alloc, id)?;
    Ok(Request::Input { id, attempt, most })
}

#[tactic(auto, unfolding(crate::specs::RequestReader::of_three, crate::specs::RequestReader::output_request, script_lines::specs::LineReader::then_read))]
fn parse_output(alloc: Global, arguments: &[&[u8]]) -> Result<Request, LineError>
    ensures { Gives result (of_three output_request (map (λ word. word.now) arguments.now)) }
{
    let [id, attempt, bytes] = arguments else {
        return Err(LineError::NotUnderstood);
    };
    let attempt = parse_u32(attempt).ok_or(LineError::NotUnderstood)?;
    let id = parse_text(alloc, id)?;
    let bytes = parse_digits(alloc, bytes)?;
    Ok(Request::Output { id, attempt, bytes })
}

#[tactic(auto, unfolding(crate::specs::RequestReader::of_two, crate::specs::RequestReader::close_of, script_lines::specs::LineReader::then_read))]
fn parse_close(alloc: Global, arguments: &[&[u8]]) -> Result<Request, LineError>
    ensures { Gives result (of_two close_of (map (λ word. word.now) arguments.now)) }
{
    let [id, attempt] = arguments else {
        return Err(LineError::NotUnderstood);
    };
    let attempt = parse_u32(attempt).ok_or(LineError::NotUnderstood)?;
    let id = parse_text(alloc, id)?;
    Ok(Request::Close { id, attempt })
}

#[tactic(auto, unfolding(crate::specs::RequestReader::of_two, crate::specs::RequestReader::stop_request_of, script_lines::specs::LineReader::then_read))]
fn parse_stop(alloc: Global, arguments: &[&[u8]]) -> Result<Request, LineError>
    ensures { Gives result (of_two stop_request_of (map (λ word. word.now) arguments.now)) }
{
    let [id, attempt] = arguments else {
        return Err(LineError::NotUnderstood);
    };
    let attempt = parse_u32(attempt).ok_or(LineError::NotUnderstood)?;
    let id = parse_text(alloc, id)?;
    Ok(Request::Stop { id, attempt })
}

/// The ids that words spell.
fn parse_ids(alloc: Global, words: &[&[u8]]) -> Result<Sequence<ByteStr>, LineError>
    ensures { Gives result (ids_of (map (λ word. word.now) words.now)) }
{
    let mut ids = Sequence::new(alloc);
    for word in words {
        let id = parse_text(alloc, word)?;
        ids.push(id)?;
    }
    Ok(ids)
}

fn parse_forget(alloc: Global, arguments: &[&[u8]]) -> Result<Request, LineError>
    ensures { Gives result (forget_of (map (λ word. word.now) arguments.now)) }
{
    if arguments.is_empty() {
        return Err(LineError::NotUnderstood);
    }
    let ids = parse_ids(alloc, arguments)?;
    Ok(Request::Forget { ids })
}

#[tactic(auto, unfolding(crate::specs::RequestReader::due_one_of, script_lines::specs::LineReader::then_read))]
fn parse_due_one(alloc: Global, id: &[u8]) -> Result<Request, LineError>
    ensures { Gives result (due_one_of id.now) }
{
    let id = parse_text(alloc, id)?;
    Ok(Request::DueOne { id })
}

#[tactic(auto, unfolding(crate::specs::RequestReader::due_after_of, script_lines::specs::LineReader::then_read))]
fn parse_due_page(alloc: Global, after: &[u8], most: &[u8]) -> Result<Request, LineError>
    ensures { Gives result (due_after_of after.now most.now) }
{
    let most = parse_u32(most).ok_or(LineError::NotUnderstood)?;
    let after = parse_text(alloc, after)?;
    Ok(Request::DueAfter { after, most })
}

#[tactic(auto, unfolding(crate::specs::RequestReader::of_due))]
fn parse_due(alloc: Global, arguments: &[&[u8]]) -> Result<Request, LineError>
    ensures { Gives result (of_due (map (λ word. word.now) arguments.now)) }
{
    match arguments {
        [] => Ok(Request::Due),
        [id] => parse_due_one(alloc, id),
        [after, most] => parse_due_page(alloc, after, most),
        _ => Err(LineError::NotUnderstood),
    }
}

#[tactic(auto, unfolding(crate::specs::RequestReader::of_none))]
fn parse_next(arguments: &[&[u8]]) -> Result<Request, LineError>
    ensures { Gives result (of_none asked.Next (map (λ word. word.now) arguments.now)) }
{
    match arguments {
        [] => Ok(Request::Next),
        _ => Err(LineError::NotUnderstood),
    }
}

#[tactic(auto, unfolding(crate::specs::RequestReader::of_one, crate::specs::RequestReader::requests_of, script_lines::specs::LineReader::then_read))]
fn parse_requests(alloc: Global, arguments: &[&[u8]]) -> Result<Request, LineError>
    ensures { Gives result (of_one requests_of (map (λ word. word.now) arguments.now)) }
{
    let [id] = arguments else {
        return Err(LineError::NotUnderstood);
    };
    let id = parse_text(alloc, id)?;
    Ok(Request::Requests { id })
}

#[tactic(auto, unfolding(crate::specs::RequestReader::list_of, script_lines::specs::LineReader::then_read))]
fn parse_page(alloc: Global, after: &[u8], most: &[u8]) -> Result<Request, LineError>
    ensures { Gives result (list_of after.now most.now) }
{
    let most = parse_u32(most).ok_or(LineError::NotUnderstood)?;
    let after = parse_text(alloc, after)?;
    Ok(Request::List { after, most })
}

#[tactic(auto, unfolding(crate::specs::RequestReader::of_list))]
fn parse_list(alloc: Global, arguments: &[&[u8]]) -> Result<Request, LineError>
    ensures { Gives result (of_list (map (λ word. word.now) arguments.now)) }
{
    match arguments {
        [] => Ok(Request::List {
            after: ByteStr::new(),
            most: u32::MAX,
        }),
        [after, most] => parse_page(alloc, after, most),
        _ => Err(LineError::NotUnderstood),
    }
}

#[tactic(auto, unfolding(crate::specs::RequestReader::of_one, crate::specs::RequestReader::show_of, script_lines::specs::LineReader::then_read))]
fn parse_show(alloc: Global, arguments: &[&[u8]]) -> Result<Request, LineError>
    ensures { Gives result (of_one show_of (map (λ word. word.now) arguments.now)) }
{
    let [id] = arguments else {
        return Err(LineError::NotUnderstood);
    };
    let id = parse_text(alloc, id)?;
    Ok(Request::Show { id })
}

#[tactic(auto, unfolding(crate::specs::RequestReader::of_one, crate::specs::RequestReader::answer_of, script_lines::specs::LineReader::then_read))]
fn parse_answer(alloc: Global, arguments: &[&[u8]]) -> Result<Request, LineError>
    ensures { Gives result (of_one answer_of (map (λ word. word.now) arguments.now)) }
{
    let [id] = arguments else {
        return Err(LineError::NotUnderstood);
    };
    let id = parse_text(alloc, id)?;
    Ok(Request::Answer { id })
}

#[tactic(auto, unfolding(crate::specs::RequestReader::of_one, crate::specs::RequestReader::state_of, script_lines::specs::LineReader::then_read))]
fn parse_state(alloc: Global, arguments: &[&[u8]]) -> Result<Request, LineError>
    ensures { Gives result (of_one state_of (map (λ word. word.now) arguments.now)) }
{
    let [object] = arguments else {
        return Err(LineError::NotUnderstood);
    };
    let object = parse_text(alloc, object)?;
    Ok(Request::State { object })
}

#[tactic(auto, unfolding(crate::specs::RequestReader::of_one, crate::specs::RequestReader::error_of, script_lines::specs::LineReader::then_read))]
fn parse_error(alloc: Global, arguments: &[&[u8]]) -> Result<Request, LineError>
    ensures { Gives result (of_one error_of (map (λ word. word.now) arguments.now)) }
{
    let [id] = arguments else {
        return Err(LineError::NotUnderstood);
    };
    let id = parse_text(alloc, id)?;
    Ok(Request::Error { id })
}

#[tactic(auto, unfolding(crate::specs::RequestReader::request_spelled, crate::specs::RequestReader::arguments_of, script_lines::specs::LineReader::then_read))]
fn parse_words(alloc: Global, words: &[&[u8]]) -> Result<Request, LineError>
    ensures { Gives result (request_spelled (map (λ word. word.now) words.now)) }
{
    let [command, arguments @ ..] = words else {
        return Err(LineError::NotUnderstood);
    };
    match parse_command(command).ok_or(LineError::NotUnderstood)? {
        Command::Invoke => parse_invoke(alloc, arguments),
        Command::Result => parse_result(alloc, arguments),
        Command::Signal => parse_signal(alloc, arguments),
        Command::Cancel => parse_cancel(alloc, arguments),
        Command::Tick => parse_tick(arguments),
        Command::Begin => parse_begin(alloc, arguments),
        Command::Input => parse_input(alloc, arguments),
        Command::Output => parse_output(alloc, arguments),
        Command::Close => parse_close(alloc, arguments),
        Command::Stop => parse_stop(alloc, arguments),
        Command::Forget => parse_forget(alloc, arguments),
        Command::Due => parse_due(alloc, arguments),
        Command::Next => parse_next(arguments),
        Command::Show => parse_show(alloc, arguments),
        Command::Answer => parse_answer(alloc, arguments),
        Command::State => parse_state(alloc, arguments),
        Command::Error => parse_error(alloc, arguments),
        Command::List => parse_list(alloc, arguments),
        Command::Requests => parse_requests(alloc, arguments),
    }
}

/// The words between single spaces.
pub fn words_between<'a>(alloc: Global, bytes: &'a [u8]) -> Result<Vec<&'a [u8]>, AllocError>
    ensures { IfOk result (λ words. map (λ word. word.now) words.items ≡ slice_split (λ byte. byte == 32) bytes.now) }
{
    bytes.split(|byte| *byte == b' ').collect(alloc)
}

/// The request that a line spells, without its line feed; `None` where it spells none.
pub fn parse_request(alloc: Global, line: &[u8]) -> Result<Option<Request>, AllocError>
    ensures { IfOk result (λ request. request ≡ request_of line.now) }
{
    let words = words_between(alloc, line)?;
    match parse_words(alloc, &words) {
        Ok(request) => Ok(Some(request)),
        Err(LineError::NotUnderstood) => Ok(None),
        Err(LineError::Memory) => Err(AllocError),
    }
}
