// The state of an object: its keys are set by one invocation, and read by two more, one that is handed all of it and one that is not.
use crate::fault::Fault;
use crate::schedule::events::{Events, Place, Step, apply_each};
use crate::schedule::growth::time_each;
use crate::schedule::handlers::Told;
use crate::schedule::timed::Timed;
use crate::timing::Micros;
use journal_store::StateMode;
use std::rt::HostRuntime;
use std::time::Duration;

/// How many of the keys are timed, or all of them where these are fewer.
const TIMED: u32 = 100;

/// An invocation of the object that is there, up to its first call; and what its begin takes, which reads the state that is handed out.
fn begin<E: Events>(
    rt: &HostRuntime,
    scheduler: &mut E,
    place: &mut Place,
    which: u32,
    handler: Timed,
) -> Result<Duration, Fault> {
    place.go_on_with(which, handler)?;
    apply_each(scheduler, place, &[Step::Invoke])?;
    let took = time_each(rt, scheduler, place, &[Step::Begin], 1)?;
    apply_each(scheduler, place, &[Step::Feed, Step::Turn(1)])?;
    Ok(took)
}

/// Sets so many keys, and tells what one of the last of them takes. The invocation ends.
fn set_keys<E: Events>(
    rt: &HostRuntime,
    scheduler: &mut E,
    place: &mut Place,
    keys: u32,
) -> Result<Duration, Fault> {
    let handler = Timed::Sets(place.alloc, keys as usize);
    begin(rt, scheduler, place, 0, handler)?;
    let timed = keys.min(TIMED);
    let steps = [Step::Turn(1), Step::Move(1)];
    time_each(rt, scheduler, place, &steps, keys.saturating_sub(timed))?;
    let took = time_each(rt, scheduler, place, &steps, timed)?;
    apply_each(scheduler, place, &steps)?;
    Ok(took)
}

/// What it takes to begin an invocation and to read some of the keys. The invocation ends.
fn read_keys<E: Events>(
    rt: &HostRuntime,
    scheduler: &mut E,
    place: &mut Place,
    which: u32,
    keys: u32,
) -> Result<(Duration, Duration), Fault> {
    let timed = keys.min(TIMED);
    let handler = Timed::Reads(place.alloc, timed as usize);
    let beginning = begin(rt, scheduler, place, which, handler)?;
    let reading = time_each(rt, scheduler, place, &[Step::Turn(1), Step::Move(1)], timed)?;
    apply_each(scheduler, place, &[Step::Turn(1), Step::Move(1)])?;
    Ok((beginning, reading))
}

/// An object gets so many keys, and what is told of each kind of call is printed: of a turn with the move of its frame.
pub fn tell_states<E: Events>(
    rt: &HostRuntime,
    scheduler: &mut E,
    place: &mut Place,
    told: Told,
    keys: u32,
) -> Result<(), Fault> {
    place.go_on(0, Timed::Sleeps)?;
    let setting = set_keys(rt, scheduler, place, keys)?;
    let (beginning, eager) = read_keys(rt, scheduler, place, 1, keys)?;
    place.state = StateMode::None;
    let (_, lazy) = read_keys(rt, scheduler, place, 2, keys)?;
    place.state = StateMode::Whole;
    let (timed, events) = (keys.min(TIMED), place.events);
    let (set, begin) = (Micros::each(setting, timed), Micros::each(beginning, 1));
    let (eager, lazy) = (Micros::each(eager, timed), Micros::each(lazy, timed));
    match told {
        Told::Count => Ok(println!(rt; "state {keys} events {events}")?),
        _ => Ok(println!(rt; "state {keys} set {set} begin {begin} eager {eager} lazy {lazy}")?),
    }
}
