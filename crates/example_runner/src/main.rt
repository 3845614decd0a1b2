//! `example_runner FILE` goes on with each invocation of the file that is due, and tells when the next sleep ends.
//! `example_runner FILE NAME` adds a job of this name, which begins now; `example_runner FILE NAME order` an order, and
//! `example_runner FILE NAME trip` a trip. `example_runner FILE NAME confirm` confirms the order of this name.
//! What the jobs do outside is a line each in the file FILE.ledger.
#![tactic(auto)]

mod fault;
mod job;
mod order;
mod outside;
mod rounds;
mod trip;

use anyhow::{Error, Result, anyhow, bail};
use durable_schedule::values::bytes_of;
use durable_schedule::{
    Alter, ByteStr, Bytes, Event, File, FileStore, NewInvocation, NotificationResult, Outcome,
    Reply, Scheduler, SignalKey, Store, Straight, VMOptions, Waits, close_file, open,
};
use fault::Fault;
use job::Job;
use outside::Outside;
use std::alloc::{AllocError, Global};
use std::process::ExitCode;
use std::rt::{Clock, Env, HostRuntime};
use std::time::{SystemTime, UNIX_EPOCH};
use std::{env, io};

/// What a call does.
#[derive(Drop)]
enum Task {
    GoOn,
    Add(String, &'static str),
    Confirm(String),
}

/// The words of the call.
#[derive(Drop)]
struct Words {
    file: String,
    task: Task,
}

/// Whether a word is asked for as a flag is, such as `--help`. There is none.
fn is_flag(word: &str) -> bool {
    word.starts_with('-')
}

/// The task that the words behind the file name.
fn read_task(name: Option<String>, what: Option<String>) -> Result<Task, Fault> {
    let Some(name) = name else {
        return Ok(Task::GoOn);
    };
    if is_flag(&name) {
        return Err(Fault::Usage);
    }
    match what.as_deref() {
        None => Ok(Task::Add(name, "rounds")),
        Some("order") => Ok(Task::Add(name, "order")),
        Some("trip") => Ok(Task::Add(name, "trip")),
        Some("confirm") => Ok(Task::Confirm(name)),
        Some(_) => Err(Fault::Usage),
    }
}

fn read_words<R: Env + AllocGlobal>(rt: &R) -> Result<Words, Fault> {
    let Ok(mut words) = env::args(rt) else {
        return Err(Fault::Usage);
    };
    let _program = words.next();
    let Some(file) = words.next() else {
        return Err(Fault::Usage);
    };
    let name = words.next();
    let what = words.next();
    if words.next().is_some() || is_flag(&file) {
        return Err(Fault::Usage);
    }
    let task = read_task(name, what)?;
    Ok(Words { file, task })
}

/// The clock's moment, in milliseconds.
fn now_ms<R: Clock>(rt: &R) -> io::Result<u64> {
    match SystemTime::now(rt)?.duration_since(UNIX_EPOCH) {
        Ok(since) => Ok(u64::try_from(since.as_millis()).unwrap_or(u64::MAX)),
        Err(_) => Ok(0),
    }
}

/// An invocation of this name, for an object of the same name, that begins now.
fn named(
    alloc: Global,
    name: &str,
    handler: &'static str,
    now: u64,
) -> Result<NewInvocation, AllocError> {
    let id = ByteStr::copy_from_str(alloc, name)?;
    let object = ByteStr::copy_from_str(alloc, name)?;
    let new = NewInvocation::new(alloc, id, object, bytes_of(alloc, now)?);
    new.for_handler(ByteStr::from_static(handler))
}

/// Tells what going on with an invocation came to: in a line, and why it failed on standard error.
fn print_outcome(rt: &HostRuntime, id: &ByteStr, outcome: &Outcome) -> Result<()> {
    if let Outcome::Failed(error) = outcome {
        println!(rt; "{id}: Failed")?;
        eprintln!(rt; "{id}: {error}")?;
        return Ok(());
    }
    Ok(println!(rt; "{id}: {outcome:?}")?)
}

/// Tells each, and answers whether each came as far as it could.
fn print_outcomes(rt: &HostRuntime, outcomes: Vec<(ByteStr, Outcome)>) -> Result<bool> {
    let mut all_went_on = true;
    for (id, outcome) in outcomes {
        print_outcome(rt, &id, &outcome)?;
        all_went_on &= matches!(&outcome, Outcome::Suspended | Outcome::Ended);
    }
    Ok(all_went_on)
}

/// Goes on with each invocation that is due.
fn go_on_with_all<S: Alter + Drop>(
    host: &mut Outside<'_>,
    scheduler: &mut Scheduler<Straight<Job>, S>,
    waits: &mut Waits,
    now: u64,
) -> Result<Vec<(ByteStr, Outcome)>> {
    match scheduler.run_due(now, host, waits) {
        Ok(outcomes) => Ok(outcomes),
        Err(why) => bail!("nothing went on: refused {}, {why:?}", why.name()),
    }
}

/// The first of the two moments, of those that are.
fn first_of(one: Option<u64>, other: Option<u64>) -> Option<u64> {
    match (one, other) {
        (Some(one), Some(other)) => Some(one.min(other)),
        (one, None) => one,
        (None, other) => other,
    }
}

/// Tells when the next sleep ends, or what was put off is due, in milliseconds.
fn print_next<S: Alter + Drop>(
    rt: &HostRuntime,
    scheduler: &mut Scheduler<Straight<Job>, S>,
    waits: &Waits,
) -> Result<()> {
    let Ok(slept) = scheduler.next_moment() else {
        bail!("the file cannot be read");
    };
    match first_of(slept, waits.next_moment()) {
        Some(moment) => println!(rt; "next {moment}")?,
        None => println!(rt; "nothing sleeps")?,
    }
    Ok(())
}

/// Tells that an event was done, or why it is refused.
fn print_done(rt: &HostRuntime, name: &str, done: &str, reply: Reply) -> Result<(), Fault> {
    match reply {
        Reply::Done | Reply::Placed(_) => Ok(println!(rt; "{name}: {done}").map_err(Error::from)?),
        Reply::Refused(refusal) => Err(Fault::Refused(anyhow!(
            "{name}: refused {}, {refusal:?}",
            refusal.name()
        ))),
        _ => Err(Fault::Refused(anyhow!("{name}: not {done}"))),
    }
}

/// Adds a job of this handler that begins now.
fn add<S: Alter + Drop>(
    rt: &HostRuntime,
    scheduler: &mut Scheduler<Straight<Job>, S>,
    name: &str,
    handler: &'static str,
    now: u64,
) -> Result<(), Fault> {
    let new = named(rt.alloc(), name, handler, now).map_err(Error::from)?;
    let reply = scheduler.apply(Event::Invoke(new));
    print_done(rt, name, "added", reply)
}

/// Confirms an order.
fn confirm<S: Alter + Drop>(
    rt: &HostRuntime,
    scheduler: &mut Scheduler<Straight<Job>, S>,
    name: &str,
) -> Result<(), Fault> {
    let invocation = ByteStr::copy_from_str(rt.alloc(), name).map_err(Error::from)?;
    let reply = scheduler.apply(Event::Signal {
        invocation,
        signal: SignalKey::ByName(ByteStr::from_static("confirmed")),
        value: NotificationResult::Void,
    });
    print_done(rt, name, "confirmed", reply)
}

/// Goes on with all that is due, and tells when to call again.
fn go_on<S: Alter + Drop>(
    rt: &HostRuntime,
    scheduler: &mut Scheduler<Straight<Job>, S>,
    ledger: String,
    now: u64,
) -> Result<(), Fault> {
    let alloc = rt.alloc();
    let mut host = Outside { rt, alloc, ledger };
    let mut waits = Waits::new(alloc);
    let outcomes = go_on_with_all(&mut host, scheduler, &mut waits, now)?;
    let all_went_on = print_outcomes(rt, outcomes)?;
    print_next(rt, scheduler, &waits)?;
    if all_went_on {
        Ok(())
    } else {
        Err(Fault::Refused(anyhow!("not all jobs went on")))
    }
}

/// What a call does over an opened file.
fn run_over<S: Alter + Drop>(
    rt: &HostRuntime,
    scheduler: &mut Scheduler<Straight<Job>, S>,
    task: Task,
    ledger: String,
) -> Result<(), Fault> {
    let now = now_ms(rt).map_err(Error::from)?;
    match task {
        Task::GoOn => go_on(rt, scheduler, ledger, now),
        Task::Add(name, handler) => add(rt, scheduler, name.as_str(), handler, now),
        Task::Confirm(name) => confirm(rt, scheduler, name.as_str()),
    }
}

/// The store in a file, or why it is not taken.
fn open_store(rt: &HostRuntime, file: String) -> Result<Store<FileStore<File>>, Fault> {
    match open(rt, &file) {
        Ok(store) => Ok(store),
        Err(reason) => Err(Fault::NotTaken(file, reason)),
    }
}

fn close(store: Store<FileStore<File>>) -> Result<()> {
    match close_file(store) {
        Ok(files) => {
            drop(files);
            Ok(())
        }
        Err(left) => {
            drop(left);
            bail!("the file cannot be closed")
        }
    }
}

fn run(rt: &HostRuntime) -> Result<(), Fault> {
    let Words { file, task } = read_words(rt)?;
    let ledger = format!(in rt.alloc(); "{file}.ledger").map_err(Error::from)?;
    let store = open_store(rt, file)?;
    let mut scheduler = Scheduler::new(rt.alloc(), store, VMOptions::default());
    let done = run_over(rt, &mut scheduler, task, ledger);
    let closed = close(scheduler.into_store());
    done?;
    Ok(closed?)
}

fn main(rt: HostRuntime) -> ExitCode {
    match run(&rt) {
        Ok(()) => ExitCode::SUCCESS,
        Err(fault) => {
            let _ = eprintln!(rt; "{fault}");
            ExitCode::from(fault.status())
        }
    }
}
