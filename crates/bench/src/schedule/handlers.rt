// Invocations of `race` and `ask`, from invoke to end.
use crate::fault::Fault;
use crate::schedule::events::{Events, Place, Step, apply_each};
use crate::schedule::timed::Timed;
use crate::timing::{Micros, Stopwatch};
use std::rt::HostRuntime;
use std::time::Duration;

/// In which order the numbers of invocations come, of which their ids are made: one behind the other, or scattered.
#[derive(Clone, Copy)]
pub enum Numbers {
    Counted,
    Scattered,
}

/// No two numbers are scattered to the same one.
fn number(numbers: Numbers, which: u32) -> u32 {
    match numbers {
        Numbers::Counted => which,
        Numbers::Scattered => which.wrapping_mul(2_654_435_761),
    }
}

/// So many invocations of one handler, by numbers from the first on.
#[derive(Clone, Copy)]
struct Invocations {
    handler: Timed,
    numbers: Numbers,
    first: u32,
    count: u32,
}

/// The invocation of this place, from invoke to end. Its first attempt is stopped where it waits, behind its input and its requests,
/// which are moved with what it waits for. The second waits too; then what it waits for comes, and it is woken, asks which is over or
/// takes the answer, puts out and ends. `race` makes two sleeps and waits for the first that is over, `ask` waits for a call.
fn apply_all<E: Events>(scheduler: &mut E, place: &mut Place) -> Result<(), Fault> {
    let (turns, requests, waking) = match place.handler {
        Timed::Race(_) => (Step::Turn(4), Step::Move(3), Step::Tick(20, 2)),
        _ => (Step::Turn(3), Step::Move(2), Step::Result(2)),
    };
    let steps = [
        Step::Invoke,
        Step::Begin,
        Step::Feed,
        turns,
        requests,
        Step::Stop,
        Step::Begin,
        Step::Feed,
        turns,
        Step::Move(1),
        waking,
        Step::Feed,
        Step::Turn(4),
        Step::Move(2),
    ];
    apply_each(scheduler, place, &steps)
}

/// One invocation behind the other.
fn do_all<E: Events>(scheduler: &mut E, place: &mut Place, all: Invocations) -> Result<(), Fault> {
    for at in 0..all.count {
        let which = number(all.numbers, all.first.wrapping_add(at));
        place.go_on(which, all.handler)?;
        apply_all(scheduler, place)?;
    }
    Ok(())
}

/// What is told of events: how many there were, what one took of the processor where they are in memory, or, of those in a file, what
/// one took by the clock, since a disk is waited for.
#[derive(Clone, Copy)]
pub enum Told {
    Count,
    Memory,
    File,
}

fn print_all(
    rt: &HostRuntime,
    told: Told,
    all: Invocations,
    events: u32,
    took: Duration,
) -> Result<(), Fault> {
    let count = all.count;
    let event = Micros::each(took, events);
    let name = match all.handler {
        Timed::Race(_) => "race",
        _ => "ask",
    };
    let order = match all.numbers {
        Numbers::Counted => "counted",
        Numbers::Scattered => "scattered",
    };
    let place = match told {
        Told::File => "file",
        _ => "memory",
    };
    match told {
        Told::Count => Ok(println!(rt; "{name} {count} events {events}")?),
        _ => Ok(println!(rt; "{place} {name} {count} event {event} {order}")?),
    }
}

/// Brings invocations to their ends, and prints what is told of their events.
fn tell_all<E: Events>(
    rt: &HostRuntime,
    scheduler: &mut E,
    place: &mut Place,
    told: Told,
    all: Invocations,
) -> Result<(), Fault> {
    let before = place.events;
    let mut watch = Stopwatch::start(rt, matches!(told, Told::File))?;
    do_all(scheduler, place, all)?;
    let took = watch.lap(rt)?;
    let events = place.events.wrapping_sub(before);
    print_all(rt, told, all, events, took)
}

/// Brings so many invocations of each handler to their ends, and prints what is told of their events.
pub fn tell_both<E: Events>(
    rt: &HostRuntime,
    scheduler: &mut E,
    place: &mut Place,
    told: Told,
    numbers: Numbers,
    count: u32,
) -> Result<(), Fault> {
    let race = Invocations {
        handler: Timed::Race(place.alloc),
        numbers,
        first: 0,
        count,
    };
    let mut ask = race;
    ask.handler = Timed::Ask(place.alloc);
    ask.first = count;
    tell_all(rt, scheduler, place, told, race)?;
    tell_all(rt, scheduler, place, told, ask)
}
