//! What an event of a schedule takes, in memory and in a file, and whether that grows with the invocations and the journal.
mod events;
mod growth;
mod handlers;
mod runs;
mod states;
mod timed;
mod waiting;

use crate::fault::Fault;
use events::Place;
use growth::tell_growth;
use handlers::{Numbers, Told, tell_both};
use journal_store::{NotOpened, Store};
use runs::tell_runs;
use scheduler::Scheduler;
use sqlite::{Alter, Unknown};
use states::tell_states;
use std::rt::HostRuntime;
use store_files::{NotTaken, open_file, open_in_memory};
use timed::Timed;
use vm_types::VMOptions;
use waiting::tell_due;

/// What is done over one scheduler.
#[derive(Clone, Copy)]
enum Work {
    /// So many invocations of each handler.
    Invocations(Numbers, u32),
    /// One whose journal grows by so many entries, so many times.
    Growth(u32, u32),
    /// An object of so many keys.
    States(u32),
    /// One that makes so many runs.
    Runs(u32),
    /// So many that are suspended, of which ten are due.
    Due(u32),
}

/// A little of each.
const LITTLE: [Work; 5] = [
    Work::Invocations(Numbers::Counted, 2),
    Work::Growth(20, 1),
    Work::States(3),
    Work::Runs(3),
    Work::Due(20),
];

/// How many runs an invocation makes, few and many.
const RUNS: [u32; 2] = [10, 10_000];

/// Journals that grow to 10 and to 10,000 entries, objects of 10 and of 10,000 keys, and ten that are due among 100 and among 100,000.
const AT_SIZES: [Work; 8] = [
    Work::Growth(10, 1),
    Work::Growth(1_000, 10),
    Work::States(10),
    Work::States(10_000),
    Work::Runs(RUNS[0]),
    Work::Runs(RUNS[1]),
    Work::Due(100),
    Work::Due(100_000),
];

/// Over a store that was opened, unless it was not.
fn tell<S: Alter + Drop, L: Drop>(
    rt: &HostRuntime,
    opened: Result<Store<S>, NotTaken<L, NotOpened<S>>>,
    told: Told,
    work: Work,
) -> Result<(), Fault> {
    let store = match opened {
        Ok(store) => store,
        Err(left) => {
            drop(left);
            return Err(Fault::NoStore);
        }
    };
    let options = VMOptions::default();
    let mut scheduler: Scheduler<Timed, S> = Scheduler::new(rt.alloc(), store, options);
    let mut place = Place::new(rt.alloc());
    let done = match work {
        Work::Invocations(numbers, count) => {
            tell_both(rt, &mut scheduler, &mut place, told, numbers, count)
        }
        Work::Growth(entries, times) => {
            tell_growth(rt, &mut scheduler, &mut place, told, entries, times)
        }
        Work::States(keys) => tell_states(rt, &mut scheduler, &mut place, told, keys),
        Work::Runs(runs) => tell_runs(rt, &mut scheduler, &mut place, told, runs),
        Work::Due(suspended) => tell_due(rt, &mut scheduler, &mut place, told, suspended),
    };
    drop(place);
    // Each library lets go of its own, so that nothing is proved here of how that is done.
    drop(scheduler.into_store().into_connection().into_store());
    done
}

/// Over an empty database in memory, as the program's `:memory:` is.
fn tell_in_memory(rt: &HostRuntime, told: Told, work: Work) -> Result<(), Fault> {
    let store = open_in_memory(rt.alloc())?;
    tell::<_, ()>(rt, Ok(store), told, work)
}

/// One behind the other, each over a database of its own in memory.
fn tell_each(rt: &HostRuntime, told: Told, all: &[Work]) -> Result<(), Fault> {
    for work in all {
        tell_in_memory(rt, told, *work)?;
    }
    Ok(())
}

/// Over a store in a new file. Each commit is on the disk. The parts of a store's type are compared where `tell` is called, and where
/// what is left of one is let go of, at no small cost: so `tell` does that.
fn tell_in_file(rt: &HostRuntime, path: &str, work: Work) -> Result<(), Fault> {
    tell(rt, open_file(rt, path, Unknown), Told::File, work)
}

/// Invocations in a new file of this name; and those of runs, each in one whose name has their number behind it.
fn tell_in_files(rt: &HostRuntime, path: &str, counted: Work) -> Result<(), Fault> {
    tell_in_file(rt, path, counted)?;
    for runs in RUNS {
        let path = format!(in rt.alloc(); "{path}-{runs}")?;
        let done = tell_in_file(rt, path.as_str(), Work::Runs(runs));
        drop(path);
        done?;
    }
    Ok(())
}

/// Does what the words say behind the part's name, or, where there are none, a little of it.
pub fn run_schedule(rt: &HostRuntime, words: &[String]) -> Result<(), Fault> {
    let Some(first) = words.get(2) else {
        return tell_each(rt, Told::Count, &LITTLE);
    };
    let is_memory = first.as_str() == "memory";
    let second = words.get(3);
    let count = match second {
        Some(count) if is_memory => count.as_str().parse()?,
        _ => first.as_str().parse()?,
    };
    let counted = Work::Invocations(Numbers::Counted, count);
    tell_in_memory(rt, Told::Memory, counted)?;
    if is_memory {
        let scattered = Work::Invocations(Numbers::Scattered, count);
        tell_in_memory(rt, Told::Memory, scattered)?;
    } else if let Some(path) = second {
        tell_in_files(rt, path.as_str(), counted)?;
    }
    tell_each(rt, Told::Memory, &AT_SIZES)
}
