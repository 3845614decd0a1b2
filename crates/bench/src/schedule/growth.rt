// An invocation whose journal grows, resumed part by part.
use crate::fault::Fault;
use crate::schedule::events::{Events, Place, Step, apply_each, repeat};
use crate::schedule::handlers::Told;
use crate::schedule::timed::Timed;
use crate::timing::{Micros, Stopwatch};
use std::rt::HostRuntime;
use std::time::Duration;

// What so many times these steps take.
pub fn time_each<E: Events>(
    rt: &HostRuntime,
    scheduler: &mut E,
    place: &mut Place,
    steps: &[Step],
    times: u32,
) -> Result<Duration, Fault> {
    let mut watch = Stopwatch::start(rt, false)?;
    repeat(scheduler, place, steps, times)?;
    watch.lap(rt)
}

/// The journal grows to so many entries from so many, each moved as it is made. Then the attempt is stopped, and the next one is handed
/// its input, reads it, and makes the sleeps again that are recorded behind it.
fn tell_part<E: Events>(
    rt: &HostRuntime,
    scheduler: &mut E,
    place: &mut Place,
    told: Told,
    from: u32,
    to: u32,
) -> Result<(), Fault> {
    let more = to.saturating_sub(from);
    let growing = time_each(rt, scheduler, place, &[Step::Turn(1), Step::Move(1)], more)?;
    let stopping = time_each(rt, scheduler, place, &[Step::Stop], 1)?;
    let beginning = time_each(rt, scheduler, place, &[Step::Begin], 1)?;
    let reading = time_each(rt, scheduler, place, &[Step::Feed, Step::Turn(to)], 1)?;
    let resuming = stopping.saturating_add(beginning).saturating_add(reading);
    let events = place.events;
    let grow = Micros::each(growing, more.wrapping_mul(2));
    let begin = Micros::each(beginning, 1);
    let resume = Micros::each(resuming, to.wrapping_add(3));
    match told {
        Told::Count => Ok(println!(rt; "journal {to} events {events}")?),
        _ => Ok(println!(rt; "journal {to} grow {grow} begin {begin} resume {resume}")?),
    }
}

/// Makes an invocation whose journal grows by so many entries, so many times, and prints what is told of each time.
pub fn tell_growth<E: Events>(
    rt: &HostRuntime,
    scheduler: &mut E,
    place: &mut Place,
    told: Told,
    entries: u32,
    times: u32,
) -> Result<(), Fault> {
    place.go_on(0, Timed::Sleeps)?;
    let first = [Step::Invoke, Step::Begin, Step::Feed, Step::Turn(1)];
    apply_each(scheduler, place, &first)?;
    let mut from = 1u32;
    for part in 0..times {
        let to = part.wrapping_add(1).wrapping_mul(entries);
        tell_part(rt, scheduler, place, told, from, to)?;
        from = to;
    }
    Ok(())
}
