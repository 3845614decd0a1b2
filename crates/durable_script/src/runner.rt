//! A line of a script, from its bytes to its text.
ghost use Rattle.std.specs.Prelude.{◌≡◌, ◌≤◌, [], IfOk, IfErr, string_bytes};
ghost use Rattle.script_lines.specs.Line.{IsLine};
ghost use Rattle.vm_types.specs.Options.{default_options};
ghost use Rattle.durable_script.specs.SchedulerChanges.{Nowhere, Reaches};
ghost use Rattle.durable_script.specs.ReplyTexts.{MakesText};
ghost use Rattle.durable_script.specs.Line.{brought, new_invocation, goes_on, IsBegin, TakesTurn, TakesTurns, TookTurns};
ghost use Rattle.durable_script.specs.Runner.{DoesNext, PrintsEvent, PrintsLine, StopsAtLine};

use crate::due::show_due;
use crate::outcome::run_outcome;
use crate::reply::{line_reply, reply_line};
use crate::show::show;
use crate::state::show_state;
use built_in_handlers::BuiltIn;
use bytes::{ByteStr, Bytes};
use durable_schedule::{Event, EventRefusal, Reply, Scheduler, Turn};
use journal_model::{Failure, NewInvocation, NotificationResult, StateMode};
use journal_store::Store;
use script_lines::fault::ScriptFault;
use script_lines::line::{Line, parse_line};
use script_lines::outcome::LineOutcome;
use script_lines::value::LineValue;
use script_lines::word::HandlerName;
use sequence::Sequence;
use sqlite::Alter;
use std::alloc::{AllocError, Global};
use store_refusals::Refusal;
use vm_types::VMOptions;

/// A scheduler that the lines of a script are done on.
#[derive(Drop)]
pub(crate) struct Runner<S: Alter> {
    pub scheduler: Scheduler<BuiltIn, S>,
}

/// An invocation is made, without headers.
fn invoke(
    alloc: Global,
    id: ByteStr,
    object: ByteStr,
    version: u32,
    state: StateMode,
    seed: u64,
    input: Bytes,
) -> Event<BuiltIn>
    ensures { result ≡ Event.Invoke (new_invocation id object version state seed input) }
{
    Event::Invoke(NewInvocation {
        id,
        object,
        input,
        headers: Sequence::new(alloc),
        version,
        seed,
        state,
    })
}

/// What a line's value brings, without pairs.
fn brought(alloc: Global, value: LineValue) -> NotificationResult
    ensures { result ≡ brought value }
{
    match value {
        LineValue::Void => NotificationResult::Void,
        LineValue::Value(bytes) => NotificationResult::Value(bytes),
        LineValue::Failure { code, message } => NotificationResult::Failure(Failure {
            code: u32::from(code),
            message,
            metadata: Sequence::new(alloc),
        }),
        LineValue::InvocationId(id) => NotificationResult::InvocationId(id),
    }
}

/// An attempt is begun, with the handler of this name.
fn begin(alloc: Global, invocation: ByteStr, name: HandlerName, now: u64) -> Event<BuiltIn>
    ensures { IsBegin invocation name now result }
{
    let handler = BuiltIn::from_name(alloc, name.word()).unwrap();
    Event::Begin {
        invocation,
        handler,
        now,
    }
}

/// Applies one event.
fn do_event<S: Alter + Drop>(
    scheduler: &mut Scheduler<BuiltIn, S>,
    event: Event<BuiltIn>,
) -> Result<String, AllocError>
    ensures { MakesText string_bytes result (λ text. PrintsEvent S.Store event text scheduler.old scheduler.new) }
{
    let reply = scheduler.apply(event);
    let text = reply_line(scheduler.alloc, line_reply(1, &reply));
    drop(reply);
    text
}

/// Whether a reply is that of a turn behind which there is another to make.
fn goes_on(reply: &Reply) -> bool
    ensures { result ≡ goes_on reply.now }
{
    matches!(reply, Reply::Turned(Turn::Answered | Turn::RanBody))
}

/// Takes a turn, or none where memory is refused for the copy of the outcome.
fn take_turn<S: Alter + Drop>(
    scheduler: &mut Scheduler<BuiltIn, S>,
    id: &ByteStr,
    attempt: u32,
    outcome: &Option<LineOutcome>,
) -> Reply
    ensures { Reaches S.Store Nowhere (TakesTurn id.now attempt outcome.now result) scheduler.old scheduler.new }
{
    match run_outcome(scheduler.alloc, outcome) {
        Ok(given) => scheduler.take_turn(id, attempt, given),
        Err(_) => Reply::Refused(EventRefusal::Store(Refusal::OutOfMemory)),
    }
}

/// Takes up to so many turns, and answers how many, and the last reply.
fn take_turns<S: Alter + Drop>(
    scheduler: &mut Scheduler<BuiltIn, S>,
    id: &ByteStr,
    attempt: u32,
    count: u32,
    outcome: &Option<LineOutcome>,
) -> (u32, Reply)
    requires { 1 ≤ count }
    ensures { Reaches S.Store Nowhere (TookTurns id.now attempt count outcome.now result.0 result.1) scheduler.old scheduler.new }
{
    let mut taken = 1u32;
    loop {
        let reply = take_turn(scheduler, id, attempt, outcome);
        if taken == count || !goes_on(&reply) {
            return (taken, reply);
        }
        drop(reply);
        taken += 1;
    }
}

/// Takes up to so many turns, and makes their text.
fn do_turns<S: Alter + Drop>(
    scheduler: &mut Scheduler<BuiltIn, S>,
    id: &ByteStr,
    attempt: u32,
    count: u32,
    outcome: Option<LineOutcome>,
) -> Result<String, AllocError>
    requires { 1 ≤ count }
    ensures { MakesText string_bytes result (λ text. Reaches S.Store Nowhere (TakesTurns id.now attempt count outcome text) scheduler.old scheduler.new) }
{
    let (taken, reply) = take_turns(scheduler, id, attempt, count, &outcome);
    drop(outcome);
    let text = reply_line(scheduler.alloc, line_reply(taken, &reply));
    drop(reply);
    text
}

/// Does what a line says, and makes its text.
fn carry_out<S: Alter + Drop>(
    scheduler: &mut Scheduler<BuiltIn, S>,
    line: Line,
) -> Result<String, AllocError>
    requires { IsLine line }
    ensures { MakesText string_bytes result (λ text. PrintsLine S.Store line text scheduler.old scheduler.new) }
{
    let alloc = scheduler.alloc;
    match line {
        Line::Invoke {
            id,
            object,
            version,
            state,
            seed,
            input,
        } => {
            let event = invoke(alloc, id, object, version, state, seed, input);
            do_event(scheduler, event)
        }
        Line::Result {
            id,
            completion,
            value,
        } => {
            let value = brought(alloc, value);
            do_event(
                scheduler,
                Event::Result {
                    invocation: id,
                    completion,
                    value,
                },
            )
        }
        Line::Signal { id, target, value } => {
            let value = brought(alloc, value);
            do_event(
                scheduler,
                Event::Signal {
                    invocation: id,
                    signal: target,
                    value,
                },
            )
        }
        Line::Cancel { id } => do_event(scheduler, Event::Cancel { invocation: id }),
        Line::Tick { now } => do_event(scheduler, Event::Tick(now)),
        Line::Begin {
            id,
            handler: name,
            now,
        } => {
            let event = begin(alloc, id, name, now);
            do_event(scheduler, event)
        }
        Line::Feed { id, attempt, count } => do_event(
            scheduler,
            Event::Feed {
                invocation: id,
                attempt,
                count: count as usize,
            },
        ),
        Line::Close { id, attempt } => do_event(
            scheduler,
            Event::Close {
                invocation: id,
                attempt,
            },
        ),
        Line::Turn {
            id,
            attempt,
            count,
            outcome,
        } => do_turns(scheduler, &id, attempt, count, outcome),
        Line::Move { id, attempt, count } => do_event(
            scheduler,
            Event::Move {
                invocation: id,
                attempt,
                count: count as usize,
            },
        ),
        Line::Stop { id, attempt } => do_event(
            scheduler,
            Event::Stop {
                invocation: id,
                attempt,
            },
        ),
        Line::Due => show_due(scheduler),
        Line::Show { id } => show(scheduler, &id),
        Line::State { object } => show_state(scheduler, &object),
    }
}

impl<S: Alter + Drop> Runner<S> {
    /// A new scheduler over a store.
    pub fn new(alloc: Global, store: Store<S>) -> Runner<S>
        ensures store { result.scheduler.store ≡ store }
        ensures options { result.scheduler.options ≡ default_options }
        ensures held { result.scheduler.held ≡ [] }
    {
        Runner {
            scheduler: Scheduler::new(alloc, store, VMOptions::default()),
        }
    }

    /// Does a line, and answers what is to be written.
    pub fn do_line(&mut self, number: usize, bytes: &[u8]) -> Result<String, ScriptFault>
        ensures ok { IfOk result (λ text. DoesNext S.Store bytes.now (string_bytes text) self.old self.new) }
        ensures err { IfErr result (λ fault. StopsAtLine S.Store number bytes.now fault self.old self.new) }
    {
        let alloc = self.scheduler.alloc;
        match parse_line(alloc, bytes)? {
            Some(understood) => {
                carry_out(&mut self.scheduler, understood).or(Err(ScriptFault::TextOutOfMemory))
            }
            None => Err(ScriptFault::LineNotUnderstood(number)),
        }
    }
}
