//! A script, run over a scheduler line by line: what each line does, and what is written of it.
#![tactic(auto)]

mod due;
pub mod laws;
mod outcome;
mod reply;
mod run;
mod runner;
mod show;
mod state;

pub use durable_schedule::{Event, Reply, Scheduler, run_schedule};
pub use run::{ScriptEnd, run_script};
pub use script_lines::fault::ScriptFault;
pub use shown_records::{ShownEntry, read_entries};
