//! Rows through the schedule, whose files stop at a call, of which an allocation is refused, whose reader or writer fails, or whose handler
//! is changed.
//!
//! A row is three scripts: NAME.first is what is stopped, a line of it prints one; NAME.shows shows what is recorded; NAME.again gives
//! again what came from outside, and begins new attempts. Its lines behind a remark `# unless TEXT`, up to the next one, are left out where
//! TEXT is shown. A word of the call is a row, or says what befalls the rows behind it: `stopped`, `refused`, `cut`, which is refused and
//! has no line done behind that, or `broken`. The word `changed` has rows of its own. Where one allocation is refused is said by
//! `.ci/refusing`: without it none is, and a row is one round.
#![tactic(auto)]

mod broken;
mod changed;
mod disks;
mod fault;
mod refusing;
mod row;
mod stops;

use broken::break_row;
use fault::Fault;
use refusing::{Lines, refuse_row};
use row::Row;
use std::process::ExitCode;
use std::rt::{Env, Files};
use std::{env, fs};
use stops::stop_row;

/// What befalls a row.
#[derive(Clone, Copy)]
enum Befalls {
    Stop,
    Refusal,
    Cut,
    Break,
}

fn read<R: Files + AllocGlobal>(rt: &R, name: &str, ending: &str) -> Result<String, Fault> {
    let path = format!(in rt.alloc(); "{name}.{ending}")?;
    Ok(fs::read_to_string(rt, path.as_str())?)
}

fn read_row<R: Files + AllocGlobal>(rt: &R, name: &str) -> Result<Row, Fault> {
    let first = read(rt, name, "first")?;
    let shows = read(rt, name, "shows")?;
    let again = read(rt, name, "again")?;
    Ok(Row {
        first,
        shows,
        again,
    })
}

fn run_row<R: Files + Print + AllocGlobal>(
    rt: &R,
    befalls: Befalls,
    name: &str,
) -> Result<(), Fault> {
    let row = read_row(rt, name)?;
    match befalls {
        Befalls::Stop => stop_row(rt, name, &row),
        Befalls::Refusal => refuse_row(rt, name, &row, Lines::All),
        Befalls::Cut => refuse_row(rt, name, &row, Lines::UntilRefused),
        Befalls::Break => break_row(rt, name, &row),
    }
}

fn run_all<R: Files + Env + Print + AllocGlobal>(rt: &R) -> Result<(), Fault> {
    let mut words = env::args(rt)?;
    let _program = words.next();
    let mut befalls = Befalls::Stop;
    for word in words {
        match word.as_str() {
            "stopped" => befalls = Befalls::Stop,
            "refused" => befalls = Befalls::Refusal,
            "cut" => befalls = Befalls::Cut,
            "broken" => befalls = Befalls::Break,
            "changed" => changed::run(rt)?,
            name => run_row(rt, befalls, name)?,
        }
    }
    Ok(())
}

fn main(rt: HostRuntime) -> ExitCode {
    match run_all(&rt) {
        Ok(()) => ExitCode::SUCCESS,
        Err(fault) => {
            let _ = eprintln!(rt; "{fault:?}");
            ExitCode::FAILURE
        }
    }
}
