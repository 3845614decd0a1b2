// The handlers of the invocations whose events are timed.
ghost use Rattle.std.specs.Prelude.{◌≡◌, decimal, IfOk};
ghost use Rattle.bench.specs.TimedHandlers.{get_of, run_behind, set_of};

use built_in_handlers::handlers::{Ask, Race};
use bytes::{ByteStr, Bytes};
use itoa::Buffer;
use journal_model::{Answer, AwaitedFuture, Call, Handler, Input, Moment, PayloadOptions};
use std::alloc::{AllocError, Global};

/// A handler whose events are timed. All are of one type, since there is a scheduler for each type of handlers.
#[derive(Clone, Copy)]
pub enum Timed {
    Race(Global),
    Ask(Global),
    /// Sleeps until 1000 ms, again and again, and waits for none of them.
    Sleeps,
    /// Sets so many keys, the numbers from 0 on, and ends.
    Sets(Global, usize),
    /// Reads so many keys, the numbers from 0 on, waits for none of them, and ends.
    Reads(Global, usize),
    /// Makes a run and awaits it, again and again.
    Runs,
}

/// The key of this number.
fn key(alloc: Global, number: usize) -> Result<ByteStr, AllocError>
    ensures { IfOk result (λ key. key ≡ decimal number) }
{
    ByteStr::copy_from_str(alloc, Buffer::new().format(number))
}

fn set(alloc: Global, number: usize) -> Result<Call, AllocError>
    ensures { IfOk result (λ call. call ≡ set_of number) }
{
    Ok(Call::StateSet {
        key: key(alloc, number)?,
        value: Bytes::from_static(b"sixteen bytes..."),
        name: None,
        options: PayloadOptions::stable_serialization(),
    })
}

fn get(alloc: Global, number: usize) -> Result<Call, AllocError>
    ensures { IfOk result (λ call. call ≡ get_of number) }
{
    Ok(Call::StateGet {
        key: key(alloc, number)?,
        name: None,
        options: PayloadOptions::stable_serialization(),
    })
}

/// The run that was made last is awaited, or one more is made.
fn run(answers: &[Answer]) -> Call
    ensures { result ≡ run_behind answers.now }
{
    match answers.get(answers.len().saturating_sub(1)) {
        Some(Answer::Handle(handle)) => Call::Await(AwaitedFuture::single(*handle)),
        _ => Call::Run {
            name: ByteStr::from_static("r"),
        },
    }
}

impl Handler for Timed {
    ghost use Rattle.bench.specs.TimedHandlers.{function_of};

    ghost next_call = { function_of };

    fn next(&self, input: &Input, answers: &[Answer]) -> Result<Call, AllocError> {
        match *self {
            Timed::Race(alloc) => Race { alloc }.next(input, answers),
            Timed::Ask(alloc) => Ask { alloc }.next(input, answers),
            Timed::Sleeps => Ok(Call::Sleep {
                name: ByteStr::new(),
                wake_up: Moment::from_millis(1000),
                now: None,
            }),
            Timed::Sets(alloc, count) if answers.len() < count => set(alloc, answers.len()),
            Timed::Reads(alloc, count) if answers.len() < count => get(alloc, answers.len()),
            Timed::Runs => Ok(run(answers)),
            _ => Ok(Call::End),
        }
    }
}
