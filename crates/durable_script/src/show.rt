//! What is recorded of an invocation, as a line shows it.
ghost use Rattle.std.specs.Prelude.{IfOk, IfErr, string_bytes};
ghost use Rattle.durable_script.specs.ReplyTexts.{MakesText};
ghost use Rattle.durable_script.specs.SchedulerChanges.{Nowhere, Reaches};
ghost use Rattle.durable_script.specs.ShowLines.{HasEntries, HasRecords, ShowsOnly, RefusesShow, Shows};

use crate::reply::reply_line;
use built_in_handlers::BuiltIn;
use bytes::ByteStr;
use durable_schedule::Scheduler;
use script_lines::text::LineReply;
use shown_records::{ShownEntry, ShownInvocation, read_entries};
use sqlite::Alter;
use std::alloc::AllocError;
use store_refusals::Refusal;

/// The requests and arrivals that are recorded.
fn shown_entries<S: Alter + Drop>(
    scheduler: &mut Scheduler<BuiltIn, S>,
    id: &ByteStr,
) -> Result<Vec<ShownEntry>, Refusal>
    ensures ok { IfOk result (λ shown. Reaches S.Store Nowhere (ShowsOnly (HasEntries id.now shown.items)) scheduler.old scheduler.new) }
    ensures err { IfErr result (λ refusal. Reaches S.Store Nowhere (ShowsOnly (RefusesShow id.now refusal)) scheduler.old scheduler.new) }
{
    let alloc = scheduler.alloc;
    let entries = scheduler.entries(id)?;
    read_entries(alloc, entries)
}

/// What the store holds of an invocation.
fn shown<S: Alter + Drop>(
    scheduler: &mut Scheduler<BuiltIn, S>,
    id: &ByteStr,
) -> Result<ShownInvocation, Refusal>
    ensures ok { IfOk result (λ shown. Reaches S.Store Nowhere (ShowsOnly (HasRecords id.now shown.entries.items shown.answer shown.is_open)) scheduler.old scheduler.new) }
    ensures err { IfErr result (λ refusal. Reaches S.Store Nowhere (ShowsOnly (RefusesShow id.now refusal)) scheduler.old scheduler.new) }
{
    let is_open = scheduler.is_open(id)?;
    let answer = scheduler.answer(id)?;
    match shown_entries(scheduler, id) {
        Ok(entries) => Ok(ShownInvocation {
            entries,
            answer,
            is_open,
        }),
        Err(refusal) => {
            drop(answer);
            Err(refusal)
        }
    }
}

/// What a line that shows an invocation prints.
pub(crate) fn show<S: Alter + Drop>(
    scheduler: &mut Scheduler<BuiltIn, S>,
    id: &ByteStr,
) -> Result<String, AllocError>
    ensures { MakesText string_bytes result (λ text. Reaches S.Store Nowhere (ShowsOnly (Shows id.now text)) scheduler.old scheduler.new) }
{
    let alloc = scheduler.alloc;
    match shown(scheduler, id) {
        Ok(shown) => {
            let text = format!(in alloc; "{shown}");
            drop(shown);
            text
        }
        Err(refusal) => reply_line(alloc, LineReply::Refused(refusal.name())),
    }
}
