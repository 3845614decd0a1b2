//! What frames, a machine and straight-line code take:
//!
//! - `bench_machine protocol COUNT` reads and writes a journal of so many commands, the twenty in turn.
//! - `bench_machine machine COUNT`: a handler sleeps and calls another handler COUNT times in turn, and waits for each answer. It is
//!   replayed over its whole journal, and then makes as many calls anew, beside what decoding the same bytes alone takes.
//! - `bench_machine turns COUNT` gives straight-line handlers so many answers, and makes turns behind them.
//!
//! A part with no number behind it does a little, and prints what came of it without times. With no word at all each part does so.
#![tactic(auto)]

mod fault;
mod loops;
mod machine;
mod protocol;
mod timing;
mod turns;

use fault::Fault;
use invocation_vm::CoreVM;
use machine::run_machine;
use protocol::run_protocol;
use std::env;
use std::process::ExitCode;
use std::rt::HostRuntime;
use turns::run_turns;

/// The number that is the word at a place of the call, unless the call is shorter.
fn number_at(words: &[String], place: usize) -> Result<Option<u32>, Fault> {
    match words.get(place) {
        Some(word) => Ok(Some(word.as_str().parse()?)),
        None => Ok(None),
    }
}

/// Does what the words say behind the name of a part.
fn run_part(rt: &HostRuntime, part: &str, words: &[String]) -> Result<(), Fault> {
    let count = number_at(words, 2)?;
    match part {
        "protocol" => run_protocol(rt, count),
        "machine" => run_machine::<CoreVM>(rt, count),
        "turns" => run_turns(rt, count),
        _ => Err(Fault::NotUnderstood),
    }
}

/// Does what the words say behind the program's own name.
fn run_words(rt: &HostRuntime, words: &[String]) -> Result<(), Fault> {
    if let Some(part) = words.get(1) {
        return run_part(rt, part.as_str(), words);
    }
    for part in ["protocol", "machine", "turns"] {
        run_part(rt, part, words)?;
    }
    Ok(())
}

fn run(rt: &HostRuntime) -> Result<(), Fault> {
    let words: Vec<String> = env::args(rt)?.collect(rt.alloc())?;
    let done = run_words(rt, words.as_slice());
    drop(words);
    done
}

fn main(rt: HostRuntime) -> ExitCode {
    match run(&rt) {
        Ok(()) => ExitCode::SUCCESS,
        Err(fault) => {
            let _ = eprintln!(rt; "{fault:?}");
            ExitCode::FAILURE
        }
    }
}
