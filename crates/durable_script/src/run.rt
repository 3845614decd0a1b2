//! A whole script, from a reader to a writer.
ghost use Rattle.std.specs.Prelude.{◌≡◌, Err};
ghost use Rattle.script_lines.specs.Script.{numbered_lines};
ghost use Rattle.durable_script.specs.Run.{DoesLines, HasRun, RunsScript};

use crate::runner::Runner;
use built_in_handlers::BuiltIn;
use durable_schedule::{
    frames_are_taken, invocations_stand_alone, records_of_runs, schedules_keep, schedules_leave,
};
use journal_store::Store;
use script_lines::fault::ScriptFault;
use script_lines::output::{finish, write_text};
use script_lines::reading::read_script;
use script_lines::script::ScriptLines;
use sqlite::Alter;
use std::alloc::Global;
use std::io::{Read, Write};

/// What a script leaves.
#[derive(Drop)]
pub struct ScriptEnd<S: Alter> {
    /// The store, changed by the lines that were done.
    pub store: Store<S>,
    /// The script, or nothing where it cannot be read.
    pub script: Vec<u8>,
    /// Why not all lines were done and written.
    pub result: Result<(), ScriptFault>,
}

/// Does the lines of a script in order, and writes the text of each when it is done.
fn do_lines<W: Write, S: Alter + Drop>(
    runner: &mut Runner<S>,
    script: &[u8],
    writer: &mut W,
) -> Result<(), ScriptFault>
    ensures { DoesLines (numbered_lines script.now) (λ done. HasRun S.Store done runner.old.scheduler runner.new.scheduler) (W.contents writer.old) (W.contents writer.new) result }
{
    for line in ScriptLines::new(script) {
        let text = runner.do_line(line.number, line.bytes)?;
        write_text(writer, text.as_bytes())?;
    }
    Ok(())
}

/// Runs a script: reads it whole, then does its lines in order on a new scheduler over the store, and writes what each
/// prints. It ends behind the last line, at a line that is not understood, where there is no memory, or where the writer
/// fails. Nothing is known of what a flush that fails has written.
pub fn run_script<R: Read, W: Write, S: Alter + Drop>(
    alloc: Global,
    reader: &mut R,
    writer: &mut W,
    store: Store<S>,
) -> ScriptEnd<S>
    // What was done and written, and why no more. The lines that were done are a schedule, of their events with the replies that they print,
    // and leave what one leaves: the events from before stay, and more are put in front of them; of those accepted events the headline is
    // told of each of an invocation's attempts, where what was recorded before is of the one uninterrupted run of the handler that the lines
    // name, and that waking is never late and exact, that none of its frames was refused for a cause that lies in the frame, and what other
    // invocations' events leave of it. What a crash leaves is what it left before, or what the first of the lines leave, of which the same is
    // told.
    ensures runs { RunsScript S.Store (R.remaining reader.old) (R.remaining reader.new) (W.contents writer.old) (W.contents writer.new) store result.store result.result }
    ensures unread { result.result ≡ Err ScriptFault.ScriptUnreadable → writer.new ≡ writer.old }
{
    let Ok(script) = read_script(alloc, reader) else {
        return ScriptEnd {
            store,
            script: Vec::new(alloc),
            result: Err(ScriptFault::ScriptUnreadable),
        };
    };
    schedules_keep::<BuiltIn>();
    schedules_leave::<BuiltIn>();
    frames_are_taken::<BuiltIn>();
    records_of_runs();
    invocations_stand_alone();
    let mut runner = Runner::new(alloc, store);
    let reached = do_lines(&mut runner, &script, writer);
    let result = finish(writer, reached);
    let Runner { scheduler, .. } = runner;
    let store = scheduler.into_store();
    ScriptEnd {
        store,
        script,
        result,
    }
}
