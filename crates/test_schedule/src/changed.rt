//! A recorded sleep, and then a handler that makes a call in its place, under each option of a journal that does not match.
use crate::disks::{end, open_new};
use crate::fault::Fault;
use crate::row::{run as run_lines, text};
use built_in_handlers::BuiltIn;
use durable_schedule::options::{JournalMismatchRetryBehavior, VMOptions};
use durable_schedule::{
    ByteStr, Bytes, Event, NewInvocation, NoRoom, NotificationResult, Reply, RunOutcome, Sequence,
    StateMode, Turn, run_schedule,
};
use journal_store::Store;
use sqlite::Alter;
use std::alloc::Global;
use std::io;

/// What shows all that is recorded, and what is due.
const SHOWS: &[u8] = b"show i1\ndue\n";

/// How a line begins that tells a failure of such a handler. Behind it comes its text.
const FAILURE: &str = "answer failure 570";

fn id() -> ByteStr {
    ByteStr::from_static("i1")
}

fn begin(handler: BuiltIn) -> Event<BuiltIn> {
    Event::Begin {
        invocation: id(),
        handler,
        now: 0,
    }
}

fn feed(attempt: u32) -> Event<BuiltIn> {
    Event::Feed {
        invocation: id(),
        attempt,
        count: 1000,
    }
}

fn turn(attempt: u32) -> Event<BuiltIn> {
    Event::Turn {
        invocation: id(),
        attempt,
        outcome: RunOutcome::done(Bytes::new()),
    }
}

fn move_output(attempt: u32) -> Event<BuiltIn> {
    Event::Move {
        invocation: id(),
        attempt,
        count: 1000,
    }
}

fn invoke(alloc: Global, version: u32) -> Event<BuiltIn> {
    Event::Invoke(NewInvocation {
        id: id(),
        object: ByteStr::from_static("o"),
        input: Bytes::new(),
        headers: Sequence::new(alloc),
        version,
        seed: 1,
        state: StateMode::Whole,
    })
}

/// A sleep is recorded, and the handler after it asks for a call.
fn events(alloc: Global, version: u32) -> Result<Vec<Event<BuiltIn>>, Fault> {
    let Some(nap) = BuiltIn::from_name(alloc, b"nap") else {
        return Err(Fault::NotUnderstood);
    };
    let Some(ask) = BuiltIn::from_name(alloc, b"ask") else {
        return Err(Fault::NotUnderstood);
    };
    Ok(vec![in alloc;
        invoke(alloc, version),
        begin(nap),
        feed(1),
        turn(1),
        turn(1),
        move_output(1),
        Event::Stop {
            invocation: id(),
            attempt: 1
        },
        begin(ask),
        feed(2),
        turn(2),
        turn(2),
        move_output(2),
        Event::Result {
            invocation: id(),
            completion: 1,
            value: NotificationResult::Void
        },
    ]?)
}

/// The store that a schedule leaves, and the replies, or none where there was no room for them.
fn schedule<S: Alter + Drop>(
    alloc: Global,
    store: Store<S>,
    options: VMOptions,
    events: Vec<Event<BuiltIn>>,
) -> (Store<S>, Option<Vec<Reply>>) {
    match run_schedule(alloc, store, options, events) {
        Ok((scheduler, replies)) => (scheduler.into_store(), Some(replies)),
        Err(NoRoom { store }) => (store, None),
    }
}

/// Prints what has failed and what was refused.
fn print_reply<R: Print>(rt: &R, reply: &Reply) -> io::Result<()> {
    match reply {
        Reply::Turned(Turn::Failed(error)) => println!(rt; "failed {}", error.code()),
        Reply::Refused(why) => println!(rt; "refused {}", why.name()),
        _ => Ok(()),
    }
}

/// Prints what is shown, of a failure its code alone.
fn print_shown<R: Print>(rt: &R, shown: &[u8]) -> io::Result<()> {
    for line in text(shown).lines() {
        if line.starts_with(FAILURE) {
            println!(rt; "{FAILURE}")?;
        } else {
            println!(rt; "{line}")?;
        }
    }
    Ok(())
}

/// The number of what is to be done, as the error tells it.
fn behavior_in<S: Alter + Drop>(store: &mut Store<S>) -> Option<u32> {
    match store.failure(&id()) {
        Ok(Some(error)) => {
            let number = error.behavior;
            drop(error);
            Some(number)
        }
        _ => None,
    }
}

fn run_one<R: Print + AllocGlobal>(
    rt: &R,
    version: u32,
    behavior: JournalMismatchRetryBehavior,
) -> Result<(), Fault> {
    let alloc = rt.alloc();
    let mut options = VMOptions::default();
    options.journal_mismatch_retry_behavior = behavior;
    println!(rt; "== {behavior:?}, version {version}")?;
    let events = events(alloc, version)?;
    let (mut store, replies) = schedule(alloc, open_new(alloc)?, options, events);
    let told = behavior_in(&mut store);
    let (shown, store) = run_lines(alloc, store, SHOWS);
    end(store);
    let replies = replies.ok_or(Fault::Memory)?;
    for reply in replies.iter() {
        print_reply(rt, reply)?;
    }
    drop(replies);
    if let Some(number) = told {
        println!(rt; "behavior {number}")?;
    }
    print_shown(rt, &shown)?;
    Ok(())
}

/// Runs the rows.
pub fn run<R: Print + AllocGlobal>(rt: &R) -> Result<(), Fault> {
    for version in [7, 6] {
        run_one(rt, version, JournalMismatchRetryBehavior::FollowRetryPolicy)?;
        run_one(rt, version, JournalMismatchRetryBehavior::Pause)?;
        run_one(rt, version, JournalMismatchRetryBehavior::FailTerminally)?;
    }
    Ok(())
}
