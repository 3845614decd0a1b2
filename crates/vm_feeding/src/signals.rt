// The handle of a signal, of a machine in any phase.
ghost use Rattle.std.specs.Prelude.{None};
ghost use Rattle.vm_machine.specs.Causes.{NumberCauses};
ghost use Rattle.vm_machine.specs.Steps.{Steps};
ghost use Rattle.vm_feeding.specs.CommandlessCalls.{IsCalled};
ghost use Rattle.vm_feeding.specs.Handles.{MakesSignal, IsNoSignal};

use crate::answering::answer;
use bytes::ByteStr;
use journal_model::NotificationHandle;
use protocol_errors::Error;
use vm_machine::{Admission, MachineState};

// Fails, where no calls are made.
fn miss(vm: &mut MachineState) -> Error
    ensures { IsNoSignal vm.old result vm.new }
{
    if vm.active.lacks_handle() {
        return vm.fail_exhausted();
    }
    vm.fail_unexpected("named awakeable")
}

/// The handle of a signal of this name. Nothing is recorded of it.
pub fn create_signal_handle(
    vm: &mut MachineState,
    name: ByteStr,
) -> Result<NotificationHandle, Error>
    ensures { Steps (IsCalled (MakesSignal name) NumberCauses) IsNoSignal None vm.old result vm.new }
{
    match vm.admit(None) {
        Admission::Admitted => {
            let made = vm.active.create_signal_handle(name);
            answer(vm, made)
        }
        Admission::Elsewhere => Err(miss(vm)),
        Admission::Stopped(error) => Err(error),
    }
}
