//! `durable SCRIPT DATABASE`: a script is run over a database.
ghost use Rattle.std.specs.Prelude.{IfOk, IfErr, IsOk, IsErr};
ghost use Rattle.durable.specs.Fault.{IsOfScript};

use crate::database::{close, first_fault, names_memory, open_memory, open_path};
use crate::fault::ProgramFault;
use durable_script::{ScriptEnd, ScriptFault, run_script};
use script_lines::flaw::flaw_of;
use script_lines::script::ScriptLines;
use sqlite::{Start, Unknown};
use std::alloc::Global;
use std::fs::File;
use std::io;
use std::io::Read;
use std::rt::HostRuntime;
use store_files::leave_file;

/// What is amiss with the line of this number.
fn flaw_at(alloc: Global, script: &[u8], number: usize) -> Option<String> {
    for line in ScriptLines::new(script) {
        if line.number == number {
            let flaw = flaw_of(line.bytes)?;
            return format!(in alloc; "{flaw}").ok();
        }
    }
    None
}

/// What a script comes to, with what is amiss with its line, where that is not understood. Where memory for that is refused, it is left out.
fn with_flaw(alloc: Global, script: &[u8], end: Result<(), ScriptFault>) -> Result<(), ProgramFault>
    ensures ok { IfOk end (λ _. IsOk result) }
    ensures err { IfErr end (λ fault. IfErr result (IsOfScript fault) × IsErr result) }
{
    match end {
        Ok(()) => Ok(()),
        Err(ScriptFault::LineNotUnderstood(number)) => {
            let flaw = flaw_at(alloc, script, number);
            Err(ProgramFault::Script(ScriptFault::LineNotUnderstood(number), flaw))
        }
        Err(fault) => Err(ProgramFault::Script(fault, None)),
    }
}

/// Runs a script over a store in memory, which is let go of in the end.
fn run_in_memory<R: Read>(rt: &HostRuntime, script: &mut R) -> Result<(), ProgramFault> {
    let store = open_memory(rt.alloc())?;
    let end = run_script(rt.alloc(), script, &mut io::writer(rt), store);
    let ScriptEnd {
        store,
        script,
        result,
    } = end;
    drop(leave_file(store));
    with_flaw(rt.alloc(), &script, result)
}

/// Runs a script over the store in the file at a path, and closes the file, also behind a script that does not come to its end.
fn run_on_file<S: Start, R: Read>(
    rt: &HostRuntime,
    path: &str,
    start: S,
    script: &mut R,
) -> Result<(), ProgramFault> {
    let store = open_path(rt, path, start)?;
    let end = run_script(rt.alloc(), script, &mut io::writer(rt), store);
    let ScriptEnd {
        store,
        script,
        result,
    } = end;
    let closed = close(store);
    first_fault(with_flaw(rt.alloc(), &script, result), closed)
}

/// Runs the script at a path.
pub(crate) fn run_script_over(
    rt: &HostRuntime,
    path: &str,
    database: &str,
) -> Result<(), ProgramFault> {
    let Ok(mut script) = File::open(rt, path) else {
        return Err(ProgramFault::Script(ScriptFault::ScriptUnreadable, None));
    };
    if names_memory(database) {
        run_in_memory(rt, &mut script)
    } else {
        run_on_file(rt, database, Unknown, &mut script)
    }
}
