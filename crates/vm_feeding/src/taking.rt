// A take, of a machine in any phase.
ghost use Rattle.std.specs.Prelude.{codes, None};
ghost use Rattle.vm_machine.specs.Steps.{IsUnexpected, Steps};
ghost use Rattle.vm_feeding.specs.CommandlessCalls.{IsCalled};
ghost use Rattle.vm_feeding.specs.Handles.{TakesFirstResult, TakeCauses};

use bytes::ByteStr;
use journal_model::{NotificationHandle, Value};
use protocol_errors::{Error, codes};
use std::alloc::AllocError;
use vm_machine::{Admission, MachineState, child_not_id};
use vm_waiting::{TakeError, take};

// What a machine fails with that cannot hand out what it has taken.
fn take_cause(error: TakeError) -> Result<Error, AllocError>
    ensures { TakeCauses error result }
{
    match error {
        TakeError::KeyNotText => Ok(Error::new(
            codes::INTERNAL,
            ByteStr::from_static("Cannot convert an eager state key into UTF-8 String"),
        )),
        TakeError::ChildNotId => Ok(child_not_id()),
        TakeError::OutOfMemory => Err(AllocError),
    }
}

// Makes the call, where calls are made.
fn make_take(vm: &mut MachineState, handle: NotificationHandle) -> Result<Option<Value>, Error>
    ensures { IsCalled (TakesFirstResult handle) TakeCauses vm.old result vm.new }
{
    match take(&mut vm.active, vm.alloc, handle) {
        Ok(taken) => Ok(taken),
        Err(error) => Err(vm.fail(take_cause(error))),
    }
}

/// Takes what has come first of what the handle stands for, if anything has come and an await has looked at it.
///
/// Also where it cannot be handed out it is gone, and the machine fails.
pub fn take_notification(
    vm: &mut MachineState,
    handle: NotificationHandle,
) -> Result<Option<Value>, Error>
    ensures { Steps (IsCalled (TakesFirstResult handle) TakeCauses) (IsUnexpected (codes "TakeNotification")) None vm.old result vm.new }
{
    match vm.admit(None) {
        Admission::Admitted => make_take(vm, handle),
        Admission::Elsewhere => Err(vm.fail_unexpected("TakeNotification")),
        Admission::Stopped(error) => Err(error),
    }
}
