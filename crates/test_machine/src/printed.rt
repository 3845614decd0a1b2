//! Values as `{:?}` prints them: `debug options WORD ..`, `debug target SERVICE HANDLER KEYS`, `debug attach WORD ..`,
//! `debug value VALUE`, `debug related WORD`, `debug NAME`; and `debug exhausted`, what is printed where no number is left.
use crate::answers::debug;
use crate::feeding::options;
use crate::operands::{handed, invocation, target};
use bytes::ByteStr;
use invocation_vm::context::Journal;
use invocation_vm::{
    AwaitResponse, AwakeableHandle, CallHandle, CommandRelationship, CommandType,
    NotificationHandle, PayloadOptions, SendHandle,
};
use std::alloc::Global;

/// The command that an error is about.
pub fn relationship(word: &str) -> Option<CommandRelationship> {
    match word {
        "last" => Some(CommandRelationship::Last),
        "next" => Some(CommandRelationship::Next {
            ty: CommandType::Sleep,
            name: None,
        }),
        "specific" => Some(CommandRelationship::Specific {
            command_index: 7,
            ty: CommandType::Sleep,
            name: Some(ByteStr::from_static("n")),
        }),
        _ => None,
    }
}

fn handles(alloc: Global, name: &str) -> Option<String> {
    let handle = NotificationHandle::new(17);
    match name {
        "handle" => debug(alloc, handle),
        "run" => debug(alloc, AwaitResponse::ExecuteRun(handle)),
        "call" => debug(
            alloc,
            CallHandle {
                invocation_id_notification_handle: handle,
                call_notification_handle: NotificationHandle::new(18),
            },
        ),
        "send" => debug(
            alloc,
            SendHandle {
                invocation_id_notification_handle: handle,
            },
        ),
        "awakeable" => debug(
            alloc,
            AwakeableHandle {
                id: ByteStr::from_static("sign_1x"),
                handle,
            },
        ),
        _ => None,
    }
}

// No number is left behind so many commands.
fn exhausted(alloc: Global) -> Option<String> {
    let mut journal = Journal::new();
    journal.skip_to(u32::MAX);
    let taken = journal.next_completion_notification_id();
    drop(journal);
    let lack = taken.err()?;
    format!(in alloc; "{lack:?} {lack}").ok()
}

fn named(alloc: Global, name: &str) -> Option<String> {
    match name {
        "stable" => debug(alloc, PayloadOptions::stable_serialization()),
        "unstable" => debug(alloc, PayloadOptions::unstable_serialization()),
        "exhausted" => exhausted(alloc),
        name => handles(alloc, name),
    }
}

fn target_shown(alloc: Global, operands: &[&str]) -> Option<String> {
    let [service, handler, keys] = operands else {
        return None;
    };
    debug(alloc, target(alloc, *service, *handler, *keys)?)
}

pub fn answer(alloc: Global, name: &str, operands: &[&str]) -> Option<String> {
    match name {
        "options" => debug(alloc, options(operands)),
        "target" => target_shown(alloc, operands),
        "attach" => debug(alloc, invocation(alloc, operands)?),
        "value" => debug(alloc, handed(alloc, *operands.first()?)?),
        "related" => debug(alloc, relationship(*operands.first()?)?),
        name => named(alloc, name),
    }
}
