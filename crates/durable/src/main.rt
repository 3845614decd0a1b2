//! `durable SCRIPT DATABASE` runs a script over a database, which is a file, or `:memory:`. `durable --serve DATABASE` answers requests, and
//! `durable DATABASE` lists invocations.
#![tactic(auto)]

mod database;
mod fault;
mod help;
mod listing;
mod script;
mod serving;
mod words;

use durable_script::ScriptFault;
use fault::ProgramFault;
use help::HELP;
use listing::list_over;
use script::run_script_over;
use serving::serve_over;
use std::process::ExitCode;
use std::rt::HostRuntime;
use words::{Mode, read_words};

fn print_help(rt: &HostRuntime) -> Result<(), ProgramFault> {
    match print!(rt; "{HELP}") {
        Ok(()) => Ok(()),
        Err(_) => Err(ProgramFault::Script(ScriptFault::OutputUnwritable, None)),
    }
}

fn run(rt: &HostRuntime) -> Result<(), ProgramFault> {
    match read_words(rt)? {
        Mode::Help => print_help(rt),
        Mode::Run { script, database } => run_script_over(rt, script.as_str(), database.as_str()),
        Mode::Serve { database } => serve_over(rt, database.as_str()),
        Mode::List { database } => list_over(rt, database.as_str()),
    }
}

fn main(rt: HostRuntime) -> ExitCode {
    match run(&rt) {
        Ok(()) => ExitCode::SUCCESS,
        Err(fault) => {
            let _ = eprintln!(rt; "{fault}");
            ExitCode::from(fault.status())
        }
    }
}
