//! The lines of a script.
#![tactic(auto, unfolding(crate::specs::LineReader::then_read, crate::specs::LineReader::invoke_of, crate::specs::LineReader::result_line_of, crate::specs::LineReader::signal_of, crate::specs::LineReader::cancel_of, crate::specs::LineReader::tick_of, crate::specs::LineReader::begin_of, crate::specs::LineReader::feed_of, crate::specs::LineReader::close_of, crate::specs::LineReader::turns_of, crate::specs::LineReader::turn_line, crate::specs::LineReader::ending_turn_of, crate::specs::LineReader::of_turn, crate::specs::LineReader::move_of, crate::specs::LineReader::stop_of, crate::specs::LineReader::show_of, crate::specs::LineReader::state_word, crate::specs::LineReader::of_none, crate::specs::LineReader::of_one, crate::specs::LineReader::of_two, crate::specs::LineReader::of_three, crate::specs::LineReader::of_six))]

ghost use Rattle.std.specs.Prelude.{◌≡◌, ◌==◌, map, IfOk};
ghost use Rattle.std.specs.List.{slice_split};
ghost use Rattle.script_lines.specs.Word.{ReadsWord};
ghost use Rattle.script_lines.specs.Line.{spelled, IsLine};
ghost use Rattle.script_lines.specs.declared.line.Line.TheVariants as line;
ghost use Rattle.script_lines.specs.LineReader.{Gives, invoke_of, result_line_of, signal_of, cancel_of, tick_of, begin_of, feed_of, close_of, turns_of, turn_line, ending_turn_of, move_of, stop_of, show_of, state_word, of_none, of_one, of_two, of_three, of_six, of_turn, line_of};

use crate::outcome::{LineOutcome, parse_outcome};
use crate::target::parse_target;
use crate::value::{LineValue, parse_value};
use crate::word::{
    Command, HandlerName, LineError, parse_command, parse_handler, parse_mode, parse_text,
    parse_u32, parse_u64,
};
use bytes::{ByteStr, Bytes};
use journal_model::{SignalKey, StateMode};
use std::alloc::{AllocError, Global};

/// A line that is understood. `id` names an invocation, `attempt` one of its attempts.
#[derive(Drop)]
pub enum Line {
    /// Makes an invocation of an object, at a protocol version.
    Invoke {
        id: ByteStr,
        object: ByteStr,
        version: u32,
        state: StateMode,
        seed: u64,
        input: Bytes,
    },
    /// Brings what a request was made for, by the number that its completion has.
    Result {
        id: ByteStr,
        completion: u32,
        value: LineValue,
    },
    /// Brings a signal.
    Signal {
        id: ByteStr,
        target: SignalKey,
        value: LineValue,
    },
    /// Cancels an invocation.
    Cancel {
        id: ByteStr,
    },
    /// Lets it be this moment, in milliseconds.
    Tick {
        now: u64,
    },
    /// Begins an attempt with a handler, at a moment in milliseconds.
    Begin {
        id: ByteStr,
        handler: HandlerName,
        now: u64,
    },
    /// Feeds the attempt up to `count` bytes of its input.
    Feed {
        id: ByteStr,
        attempt: u32,
        count: u32,
    },
    /// Tells the attempt that no more input comes.
    Close {
        id: ByteStr,
        attempt: u32,
    },
    /// Takes up to `count` turns, at least one. The body of a run that one executes ends with the outcome, which may be left out.
    Turn {
        id: ByteStr,
        attempt: u32,
        count: u32,
        outcome: Option<LineOutcome>,
    },
    /// Moves up to `count` output bytes to the store.
    Move {
        id: ByteStr,
        attempt: u32,
        count: u32,
    },
    /// Ends the attempt.
    Stop {
        id: ByteStr,
        attempt: u32,
    },
    /// Prints the ids of the invocations that are due.
    Due,
    /// Prints what is recorded.
    Show {
        id: ByteStr,
    },
    /// Prints the state of an object.
    State {
        object: ByteStr,
    },
}

fn parse_invoke(alloc: Global, arguments: &[&[u8]]) -> Result<Line, LineError>
    ensures { Gives result (of_six invoke_of (map (λ word. word.now) arguments.now)) }
{
    let [id, object, version, state, seed, input] = arguments else {
        return Err(LineError::NotUnderstood);
    };
    parse_invocation(alloc, id, object, version, state, seed, input)
}

fn parse_invocation(
    alloc: Global,
    id: &[u8],
    object: &[u8],
    version: &[u8],
    state: &[u8],
    seed: &[u8],
    input: &[u8],
) -> Result<Line, LineError>
    ensures { Gives result (invoke_of id.now object.now version.now state.now seed.now input.now) }
{
    let version = parse_u32(version).ok_or(LineError::NotUnderstood)?;
    let state = parse_mode(state).ok_or(LineError::NotUnderstood)?;
    let seed = parse_u64(seed).ok_or(LineError::NotUnderstood)?;
    let id = parse_text(alloc, id)?;
    let object = parse_text(alloc, object)?;
    let input = parse_text(alloc, input)?.into_bytes();
    Ok(Line::Invoke {
        id,
        object,
        version,
        state,
        seed,
        input,
    })
}

fn parse_arrival(alloc: Global, arguments: &[&[u8]]) -> Result<Line, LineError>
    ensures { Gives result (of_three result_line_of (map (λ word. word.now) arguments.now)) }
{
    let [id, completion, value] = arguments else {
        return Err(LineError::NotUnderstood);
    };
    let completion = parse_u32(completion).ok_or(LineError::NotUnderstood)?;
    let id = parse_text(alloc, id)?;
    let value = parse_value(alloc, value)?;
    Ok(Line::Result {
        id,
        completion,
        value,
    })
}

fn parse_signal(alloc: Global, arguments: &[&[u8]]) -> Result<Line, LineError>
    ensures { Gives result (of_three signal_of (map (λ word. word.now) arguments.now)) }
{
    let [id, target, value] = arguments else {
        return Err(LineError::NotUnderstood);
    };
    let id = parse_text(alloc, id)?;
    let target = parse_target(alloc, target)?;
    let value = parse_value(alloc, value)?;
    Ok(Line::Signal { id, target, value })
}

fn parse_tick(arguments: &[&[u8]]) -> Result<Line, LineError>
    ensures { Gives result (of_one tick_of (map (λ word. word.now) arguments.now)) }
{
    let [now] = arguments else {
        return Err(LineError::NotUnderstood);
    };
    let now = parse_u64(now).ok_or(LineError::NotUnderstood)?;
    Ok(Line::Tick { now })
}

fn parse_begin(alloc: Global, arguments: &[&[u8]]) -> Result<Line, LineError>
    ensures { Gives result (of_three begin_of (map (λ word. word.now) arguments.now)) }
{
    let [id, handler, now] = arguments else {
        return Err(LineError::NotUnderstood);
    };
    let handler = parse_handler(handler).ok_or(LineError::NotUnderstood)?;
    let now = parse_u64(now).ok_or(LineError::NotUnderstood)?;
    let id = parse_text(alloc, id)?;
    Ok(Line::Begin { id, handler, now })
}

fn parse_feed(alloc: Global, arguments: &[&[u8]]) -> Result<Line, LineError>
    ensures { Gives result (of_three feed_of (map (λ word. word.now) arguments.now)) }
{
    let [id, attempt, count] = arguments else {
        return Err(LineError::NotUnderstood);
    };
    let attempt = parse_u32(attempt).ok_or(LineError::NotUnderstood)?;
    let count = parse_u32(count).ok_or(LineError::NotUnderstood)?;
    let id = parse_text(alloc, id)?;
    Ok(Line::Feed { id, attempt, count })
}

fn parse_close(alloc: Global, arguments: &[&[u8]]) -> Result<Line, LineError>
    ensures { Gives result (of_two close_of (map (λ word. word.now) arguments.now)) }
{
    let [id, attempt] = arguments else {
        return Err(LineError::NotUnderstood);
    };
    let attempt = parse_u32(attempt).ok_or(LineError::NotUnderstood)?;
    let id = parse_text(alloc, id)?;
    Ok(Line::Close { id, attempt })
}

/// Which attempt, and how many of its turns, of which there is one at least.
fn parse_turns(attempt: &[u8], count: &[u8]) -> Option<(u32, u32)>
    ensures { result ≡ turns_of attempt.now count.now }
{
    let attempt = parse_u32(attempt)?;
    let count = parse_u32(count)?;
    if count == 0 {
        return None;
    }
    Some((attempt, count))
}

fn parse_plain_turn(
    alloc: Global,
    id: &[u8],
    attempt: &[u8],
    count: &[u8],
) -> Result<Line, LineError>
    ensures { Gives result (turn_line id.now attempt.now count.now) }
{
    let (attempt, count) = parse_turns(attempt, count).ok_or(LineError::NotUnderstood)?;
    let id = parse_text(alloc, id)?;
    Ok(Line::Turn {
        id,
        attempt,
        count,
        outcome: None,
    })
}

fn parse_ending_turn(
    alloc: Global,
    id: &[u8],
    attempt: &[u8],
    count: &[u8],
    outcome: &[u8],
) -> Result<Line, LineError>
    ensures { Gives result (ending_turn_of id.now attempt.now count.now outcome.now) }
{
    let (attempt, count) = parse_turns(attempt, count).ok_or(LineError::NotUnderstood)?;
    let id = parse_text(alloc, id)?;
    let outcome = parse_outcome(alloc, outcome)?;
    Ok(Line::Turn {
        id,
        attempt,
        count,
        outcome: Some(outcome),
    })
}

fn parse_turn(alloc: Global, arguments: &[&[u8]]) -> Result<Line, LineError>
    ensures { Gives result (of_turn (map (λ word. word.now) arguments.now)) }
{
    match arguments {
        [id, attempt, count] => parse_plain_turn(alloc, id, attempt, count),
        [id, attempt, count, outcome] => parse_ending_turn(alloc, id, attempt, count, outcome),
        _ => Err(LineError::NotUnderstood),
    }
}

fn parse_move(alloc: Global, arguments: &[&[u8]]) -> Result<Line, LineError>
    ensures { Gives result (of_three move_of (map (λ word. word.now) arguments.now)) }
{
    let [id, attempt, count] = arguments else {
        return Err(LineError::NotUnderstood);
    };
    let attempt = parse_u32(attempt).ok_or(LineError::NotUnderstood)?;
    let count = parse_u32(count).ok_or(LineError::NotUnderstood)?;
    let id = parse_text(alloc, id)?;
    Ok(Line::Move { id, attempt, count })
}

fn parse_stop(alloc: Global, arguments: &[&[u8]]) -> Result<Line, LineError>
    ensures { Gives result (of_two stop_of (map (λ word. word.now) arguments.now)) }
{
    let [id, attempt] = arguments else {
        return Err(LineError::NotUnderstood);
    };
    let attempt = parse_u32(attempt).ok_or(LineError::NotUnderstood)?;
    let id = parse_text(alloc, id)?;
    Ok(Line::Stop { id, attempt })
}

fn parse_due(arguments: &[&[u8]]) -> Result<Line, LineError>
    ensures { Gives result (of_none line.Due (map (λ word. word.now) arguments.now)) }
{
    match arguments {
        [] => Ok(Line::Due),
        _ => Err(LineError::NotUnderstood),
    }
}

fn parse_cancel(alloc: Global, arguments: &[&[u8]]) -> Result<Line, LineError>
    ensures { Gives result (of_one cancel_of (map (λ word. word.now) arguments.now)) }
{
    let [id] = arguments else {
        return Err(LineError::NotUnderstood);
    };
    let id = parse_text(alloc, id)?;
    Ok(Line::Cancel { id })
}

fn parse_show(alloc: Global, arguments: &[&[u8]]) -> Result<Line, LineError>
    ensures { Gives result (of_one show_of (map (λ word. word.now) arguments.now)) }
{
    let [id] = arguments else {
        return Err(LineError::NotUnderstood);
    };
    let id = parse_text(alloc, id)?;
    Ok(Line::Show { id })
}

fn parse_state(alloc: Global, arguments: &[&[u8]]) -> Result<Line, LineError>
    ensures { Gives result (of_one state_word (map (λ word. word.now) arguments.now)) }
{
    let [object] = arguments else {
        return Err(LineError::NotUnderstood);
    };
    let object = parse_text(alloc, object)?;
    Ok(Line::State { object })
}

/// The words between single spaces.
fn words_between<'a>(alloc: Global, bytes: &'a [u8]) -> Result<Vec<&'a [u8]>, AllocError>
    ensures { IfOk result (λ words. map (λ word. word.now) words.items ≡ slice_split (λ byte. byte == 32) bytes.now) }
{
    bytes.split(|byte| *byte == b' ').collect(alloc)
}

#[tactic(auto, unfolding(crate::specs::LineReader::line_of, crate::specs::LineReader::arguments_of, crate::specs::LineReader::then_read))]
fn parse_words(alloc: Global, words: &[&[u8]]) -> Result<Line, LineError>
    ensures { Gives result (line_of (map (λ word. word.now) words.now)) }
{
    let [command, arguments @ ..] = words else {
        return Err(LineError::NotUnderstood);
    };
    match parse_command(command).ok_or(LineError::NotUnderstood)? {
        Command::Invoke => parse_invoke(alloc, arguments),
        Command::Result => parse_arrival(alloc, arguments),
        Command::Signal => parse_signal(alloc, arguments),
        Command::Cancel => parse_cancel(alloc, arguments),
        Command::Tick => parse_tick(arguments),
        Command::Begin => parse_begin(alloc, arguments),
        Command::Feed => parse_feed(alloc, arguments),
        Command::Close => parse_close(alloc, arguments),
        Command::Turn => parse_turn(alloc, arguments),
        Command::Move => parse_move(alloc, arguments),
        Command::Stop => parse_stop(alloc, arguments),
        Command::Due => parse_due(arguments),
        Command::Show => parse_show(alloc, arguments),
        Command::State => parse_state(alloc, arguments),
    }
}

/// The line that the bytes spell, without its line feed; `None` where they spell no line.
pub fn parse_line(alloc: Global, bytes: &[u8]) -> Result<Option<Line>, AllocError>
    ensures { IfOk result (ReadsWord spelled IsLine bytes.now) }
{
    let words = words_between(alloc, bytes)?;
    match parse_words(alloc, &words) {
        Ok(line) => Ok(Some(line)),
        Err(LineError::NotUnderstood) => Ok(None),
        Err(LineError::Memory) => Err(AllocError),
    }
}
