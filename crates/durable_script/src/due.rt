//! The invocations that are due, as a line shows them.
ghost use Rattle.std.specs.Prelude.{◌≡◌, ◌∷◌, [], ◌++◌, IfOk, string_bytes};
ghost use Rattle.script_lines.specs.Text.{due_line};
ghost use Rattle.durable_script.specs.ReplyTexts.{MakesText};
ghost use Rattle.durable_script.specs.SchedulerChanges.{Nowhere, Reaches};
ghost use Rattle.durable_script.specs.ShowLines.{ShowsOnly, ShowsDue};

use crate::reply::reply_line;
use built_in_handlers::BuiltIn;
use bytes::ByteStr;
use durable_schedule::Scheduler;
use script_lines::text::{LineReply, ShownDue};
use sqlite::Alter;
use std::alloc::{AllocError, Global};

fn ids_line(alloc: Global, ids: &[ByteStr]) -> Result<String, AllocError>
    ensures { IfOk result (λ text. string_bytes text ≡ due_line ids.now ++ 10 ∷ []) }
{
    let due = ShownDue(ids);
    format!(in alloc; "{due}\n")
}

/// What a line that shows which invocations are due prints.
pub(crate) fn show_due<S: Alter + Drop>(
    scheduler: &mut Scheduler<BuiltIn, S>,
) -> Result<String, AllocError>
    ensures { MakesText string_bytes result (λ text. Reaches S.Store Nowhere (ShowsOnly (ShowsDue text)) scheduler.old scheduler.new) }
{
    let alloc = scheduler.alloc;
    match scheduler.due() {
        Ok(ids) => {
            let text = ids_line(alloc, ids.as_slice());
            drop(ids);
            text
        }
        Err(refusal) => reply_line(alloc, LineReply::Refused(refusal.name())),
    }
}
