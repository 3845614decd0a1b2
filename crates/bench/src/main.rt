//! What a schedule takes: `bench schedule COUNT [FILE]` brings COUNT invocations of `race` and COUNT of `ask` from invoke to end, each of
//! whose first attempt is stopped where it waits, in memory, and in a new file of that name with its syncs; then one whose journal grows
//! to 10,000 entries, resumed at each tenth of them, objects of 10 and of 10,000 keys, invocations of 10 and of 10,000 runs, in such
//! files too, and ten that are due among 100 and among 100,000. `bench schedule memory COUNT` does so in memory alone, also with
//! scattered ids.
//!
//! With no number it does a little of each, and prints what came of it without times. What needs no schedule is timed by `bench_machine`.
#![tactic(auto)]

mod fault;
mod schedule;
mod timing;

use fault::Fault;
use schedule::run_schedule;
use std::env;
use std::process::ExitCode;
use std::rt::HostRuntime;

/// Does what the words say behind the program's own name.
fn run_words(rt: &HostRuntime, words: &[String]) -> Result<(), Fault> {
    match words.get(1) {
        Some(part) if part.as_str() != "schedule" => Err(Fault::NotUnderstood),
        _ => run_schedule(rt, words),
    }
}

fn run(rt: &HostRuntime) -> Result<(), Fault> {
    let words: Vec<String> = env::args(rt)?.collect(rt.alloc())?;
    let done = run_words(rt, words.as_slice());
    drop(words);
    done
}

fn main(rt: HostRuntime) -> ExitCode {
    match run(&rt) {
        Ok(()) => ExitCode::SUCCESS,
        Err(fault) => {
            let _ = eprintln!(rt; "{fault:?}");
            ExitCode::FAILURE
        }
    }
}
