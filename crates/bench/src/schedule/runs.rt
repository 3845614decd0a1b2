// An invocation that makes one run behind the other, each executed once.
use crate::fault::Fault;
use crate::schedule::events::{Events, Place, Step, apply_each, repeat};
use crate::schedule::handlers::Told;
use crate::schedule::timed::Timed;
use crate::timing::{Micros, Stopwatch};
use std::rt::HostRuntime;

/// How many of the runs are timed, or all of them where these are fewer.
const TIMED: u32 = 100;

/// An effect, from its run command to its acknowledged outcome: the run is made, and its body is executed where it is awaited; command
/// and proposal are moved; the acknowledgement is handed out, and the await is answered.
const EFFECT: [Step; 4] = [Step::Turn(2), Step::Move(2), Step::Feed, Step::Turn(1)];

/// An invocation makes so many runs, and what is told of the last of them is printed: what one took, of the processor where it is in
/// memory, by the clock where it is in a file.
pub fn tell_runs<E: Events>(
    rt: &HostRuntime,
    scheduler: &mut E,
    place: &mut Place,
    told: Told,
    runs: u32,
) -> Result<(), Fault> {
    place.go_on(0, Timed::Runs)?;
    let first = [Step::Invoke, Step::Begin, Step::Feed, Step::Turn(1)];
    apply_each(scheduler, place, &first)?;
    let timed = runs.min(TIMED);
    repeat(scheduler, place, &EFFECT, runs.saturating_sub(timed))?;
    let mut watch = Stopwatch::start(rt, matches!(told, Told::File))?;
    repeat(scheduler, place, &EFFECT, timed)?;
    let effect = Micros::each(watch.lap(rt)?, timed);
    let events = place.events;
    match told {
        Told::Count => Ok(println!(rt; "runs {runs} events {events}")?),
        Told::Memory => Ok(println!(rt; "runs {runs} memory {effect}")?),
        Told::File => Ok(println!(rt; "runs {runs} file {effect}")?),
    }
}
