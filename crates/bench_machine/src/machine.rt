//! What an entry takes that is replayed by the machine, and one that is written anew.
mod handler;
mod journal;

use crate::fault::Fault;
use crate::timing::{Stopwatch, nanoseconds_each};
use handler::{begin, replay, write};
use invocation_vm::VM;
use journal::{decode, put_calls};
use std::rt::HostRuntime;
use std::time::Duration;

// The processor time of decoding the bytes of a journal alone, of replaying it, and of making as many calls anew.
#[derive(Clone, Copy)]
struct Took {
    decoding: Duration,
    replaying: Duration,
    writing: Duration,
}

// How long all of that takes with a machine that was told nothing yet.
fn time_calls<V: VM>(
    rt: &HostRuntime,
    vm: &mut V,
    journal: &[u8],
    count: u32,
) -> Result<Took, Fault> {
    let mut watch = Stopwatch::start(rt)?;
    decode(rt.alloc(), journal)?;
    let decoding = watch.lap(rt)?;
    replay(rt.alloc(), vm, journal, count)?;
    let replaying = watch.lap(rt)?;
    drop(write(rt.alloc(), vm, count)?);
    let writing = watch.lap(rt)?;
    Ok(Took {
        decoding,
        replaying,
        writing,
    })
}

fn time_all<V: VM + Drop>(rt: &HostRuntime, journal: &[u8], count: u32) -> Result<Took, Fault> {
    let mut vm: V = begin(rt.alloc())?;
    let took = time_calls(rt, &mut vm, journal, count);
    drop(vm);
    took
}

// Prints what an entry took.
fn print_took(rt: &HostRuntime, entries: u32, commands: u32, took: Took) -> Result<(), Fault> {
    let replay = nanoseconds_each(took.replaying, entries as usize);
    let decode = nanoseconds_each(took.decoding, entries as usize);
    let write = nanoseconds_each(took.writing, commands as usize);
    Ok(println!(rt; "entries {entries} replay {replay} decode {decode} write {write}")?)
}

/// Replays a journal of so many sleeps and calls, and makes as many anew, and prints what an entry takes; or, where none are asked
/// for, of two of each, and prints that it came to its end.
pub fn run_machine<V: VM + Drop>(rt: &HostRuntime, count: Option<u32>) -> Result<(), Fault> {
    let pairs = count.unwrap_or(2);
    let mut journal = Vec::new(rt.alloc());
    put_calls::<V>(rt.alloc(), &mut journal, pairs)?;
    let took = time_all::<V>(rt, journal.as_slice(), pairs)?;
    let entries = pairs.saturating_mul(5);
    match count {
        Some(_) => print_took(rt, entries, pairs.saturating_mul(2), took),
        None => Ok(println!(rt; "entries {entries} replayed")?),
    }
}
