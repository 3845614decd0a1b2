// Which invocations are due, among many that are suspended.
use crate::fault::Fault;
use crate::schedule::events::{Events, Place, Step, apply_each};
use crate::schedule::handlers::Told;
use crate::schedule::timed::Timed;
use crate::timing::{Micros, Stopwatch};
use std::rt::HostRuntime;

/// How many of the invocations are awake.
const AWAKE: u32 = 10;

/// How often it is asked which these are.
const TIMES: u32 = 100;

/// The steps by which an attempt of `ask` suspends: it calls, its input is closed, and both frames are moved.
const SUSPEND: [Step; 7] = [
    Step::Invoke,
    Step::Begin,
    Step::Feed,
    Step::Turn(2),
    Step::Close,
    Step::Turn(1),
    Step::Move(2),
];

/// So many invocations take these steps. Their numbers begin at 0, and are so far apart.
fn apply_to<E: Events>(
    scheduler: &mut E,
    place: &mut Place,
    steps: &[Step],
    count: u32,
    apart: u32,
) -> Result<(), Fault> {
    let handler = Timed::Ask(place.alloc);
    for at in 0..count {
        place.go_on(at.wrapping_mul(apart), handler)?;
        apply_each(scheduler, place, steps)?;
    }
    Ok(())
}

/// Asks so often which invocations are due: those that are awake.
fn list_due<E: Events>(scheduler: &mut E) -> Result<(), Fault> {
    for _ in 0..TIMES {
        if scheduler.count_due()? != AWAKE as usize {
            return Err(Fault::OtherReply);
        }
    }
    Ok(())
}

/// So many invocations suspend, what a few of them wait for comes, and what is told of the call that lists these is printed.
pub fn tell_due<E: Events>(
    rt: &HostRuntime,
    scheduler: &mut E,
    place: &mut Place,
    told: Told,
    suspended: u32,
) -> Result<(), Fault> {
    apply_to(scheduler, place, &SUSPEND, suspended, 1)?;
    apply_to(
        scheduler,
        place,
        &[Step::Result(2)],
        AWAKE,
        suspended / AWAKE,
    )?;
    let mut watch = Stopwatch::start(rt, false)?;
    list_due(scheduler)?;
    let due = Micros::each(watch.lap(rt)?, TIMES);
    let events = place.events;
    match told {
        Told::Count => Ok(println!(rt; "suspended {suspended} events {events}")?),
        _ => Ok(println!(rt; "suspended {suspended} due {due}")?),
    }
}
