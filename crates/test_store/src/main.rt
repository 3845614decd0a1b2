//! Calls of a store, each printed with what it answers.
//!
//! A word of the call is a file of such calls, so that a further row is a line of one, and what is to be printed of it. The word `tables`
//! stands for records that no call of a store reaches so far.
#![tactic(auto)]

mod answers;
mod calls;
mod database;
mod fault;
pub mod names;
mod tables;
mod words;

use fault::Fault;
use std::env;
use std::process::ExitCode;
use std::rt::{Env, Files};

fn run_named<R: Files + Print + AllocGlobal>(rt: &R, name: &str) -> Result<(), Fault> {
    println!(rt; "== {name}")?;
    match name {
        "tables" => tables::run_tables(rt),
        _ => calls::run_calls(rt, name),
    }
}

fn run_all<R: Files + Env + Print + AllocGlobal>(rt: &R) -> Result<(), Fault> {
    let mut names = env::args(rt)?;
    let _program = names.next();
    for name in names {
        run_named(rt, name.as_str())?;
    }
    Ok(())
}

fn main(rt: HostRuntime) -> ExitCode {
    match run_all(&rt) {
        Ok(()) => ExitCode::SUCCESS,
        Err(fault) => {
            let _ = eprintln!(rt; "{fault:?}");
            ExitCode::FAILURE
        }
    }
}
