//! The state of an object, as a line shows it.
ghost use Rattle.std.specs.Prelude.{string_bytes};
ghost use Rattle.durable_script.specs.ReplyTexts.{MakesText};
ghost use Rattle.durable_script.specs.SchedulerChanges.{Nowhere, Reaches};
ghost use Rattle.durable_script.specs.ShowLines.{ShowsOnly, TellsState};

use crate::reply::reply_line;
use built_in_handlers::BuiltIn;
use bytes::ByteStr;
use durable_schedule::Scheduler;
use script_lines::text::LineReply;
use shown_records::ShownStates;
use sqlite::Alter;
use std::alloc::AllocError;

/// What a line that shows the state of an object prints.
pub(crate) fn show_state<S: Alter + Drop>(
    scheduler: &mut Scheduler<BuiltIn, S>,
    object: &ByteStr,
) -> Result<String, AllocError>
    ensures { MakesText string_bytes result (λ text. Reaches S.Store Nowhere (ShowsOnly (TellsState object.now text)) scheduler.old scheduler.new) }
{
    let alloc = scheduler.alloc;
    match scheduler.state(object) {
        Ok(rows) => {
            let shown = ShownStates { rows };
            let text = format!(in alloc; "{shown}");
            drop(shown);
            text
        }
        Err(refusal) => reply_line(alloc, LineReply::Refused(refusal.name())),
    }
}
