// How a cancellation is passed on to the children.
ghost use Rattle.std.specs.Prelude.{◌≡◌, List, [], ◌∷◌, Some, map};
ghost use Rattle.journal_model.specs.Request.{Request};
ghost use Rattle.vm_calls.specs.Active.{IsActiveSettled};
ghost use Rattle.vm_calls.specs.SpentReplay.{IsSpent};
ghost use Rattle.vm_waiting.specs.ChildCancellation.{cancels, PutsEach, PutsNone};

use bytes::ByteStr;
use protocol_calls::SendSignalCommandMessage;
use protocol_types::MessageType;
use std::alloc::Global;
use vm_calls::{Active, PutError, cancel_command};

/// Why a cancellation is not passed on to a child.
#[derive(Debug, Drop)]
pub enum CancelError {
    /// The command that cancels it was neither matched nor written.
    Put(PutError<SendSignalCommandMessage>),
    OutOfMemory,
}

// The request that cancels this invocation is put.
fn put_cancel(
    active: &mut Active,
    alloc: Global,
    checks_off: bool,
    id: ByteStr,
) -> Result<(), CancelError>
    ensures puts { (written : List Request) → IsActiveSettled active.old → PutsEach checks_off (cancels id ∷ []) written active.old result active.new }
    ensures spent { IsSpent active.old → PutsNone (cancels id ∷ []) active.old result active.new }
{
    let Ok(entry_name) = active.ask(MessageType::SendSignalCommand, ByteStr::new()) else {
        drop(id);
        return Err(CancelError::OutOfMemory);
    };
    let command = cancel_command(id, entry_name);
    match active.put(alloc, command, checks_off) {
        Ok(()) => Ok(()),
        Err(error) => Err(CancelError::Put(error)),
    }
}

/// Cancels each of these invocations, in their order: its request is matched with the next recorded command, or written behind the
/// journal.
pub(crate) fn put_cancels(
    active: &mut Active,
    alloc: Global,
    checks_off: bool,
    ids: Vec<ByteStr>,
) -> Result<(), CancelError>
    ensures puts { (written : List Request) → IsActiveSettled active.old → PutsEach checks_off (map cancels ids.items) written active.old result active.new }
    ensures spent { IsSpent active.old → PutsNone (map cancels ids.items) active.old result active.new }
{
    for id in ids {
        put_cancel(active, alloc, checks_off, id)?;
    }
    Ok(())
}
