// The answer of an ephemeral read is taken.
ghost use Rattle.std.specs.Prelude.{◌≡◌};
ghost use Rattle.vm_feeding.specs.EphemeralStateReads.{TakesWhere, IsReadTaken};

use journal_model::Value;
use protocol_errors::Error;
use vm_machine::{Admission, MachineState};
use vm_types::EphemeralCompletionId;

/// What the call is named by in errors.
const EVENT: &str = "TakeEphemeralNotification";

// Of a machine of which calls are made.
fn take(vm: &mut MachineState, id: EphemeralCompletionId) -> Result<Option<Value>, Error>
    ensures { TakesWhere vm.old.active.is_replaying id vm.old result vm.new }
{
    if vm.active.is_replaying {
        return Err(vm.fail_unexpected(EVENT));
    }
    Ok(vm.reads.take_notification(id))
}

/// Takes the answer of an ephemeral read, if there is one. Each is taken once.
pub fn take_ephemeral_notification(
    vm: &mut MachineState,
    id: EphemeralCompletionId,
) -> Result<Option<Value>, Error>
    ensures { IsReadTaken id vm.old result vm.new }
{
    match vm.admit(None) {
        Admission::Admitted => take(vm, id),
        Admission::Elsewhere => Err(vm.fail_unexpected(EVENT)),
        Admission::Stopped(error) => Err(error),
    }
}
