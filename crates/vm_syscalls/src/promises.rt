// The calls about promises, of a machine in any phase.
ghost use Rattle.std.specs.Prelude.{◌≡◌, []};
ghost use Rattle.journal_model.specs.declared.call.Answer.{Answer};
ghost use Rattle.journal_model.specs.declared.call.Call.{Call};
ghost use Rattle.protocol_differences.specs.Promises.{complete_promise_command_difference, get_promise_command_difference, peek_promise_command_difference};
ghost use Rattle.protocol_types.specs.declared.message_type.MessageType.TheVariants.{CompletePromiseCommand, GetPromiseCommand, PeekPromiseCommand};
ghost use Rattle.vm_machine.specs.Calls.{Calls};

use bytes::ByteStr;
use journal_model::{NonEmptyValue, NotificationHandle, PayloadOptions};
use protocol_errors::Error;
use protocol_types::MessageType;
use vm_machine::{Admission, MachineState, checks_off, refusal_error};
use vm_refusals::refuse_value;

/// Waits for a promise: the handle's notification brings its value.
pub fn sys_get_promise(vm: &mut MachineState, key: ByteStr) -> Result<NotificationHandle, Error>
    ensures { Calls get_promise_command_difference (Call.GetPromise key) (λ handle. Answer.Handle handle) [] GetPromiseCommand [] vm.old result vm.new }
{
    match vm.admit(None) {
        Admission::Admitted => {
            let ignoring = checks_off(vm.options.non_determinism_checks);
            let made = vm.active.get_promise(vm.alloc, ignoring, key);
            vm.settle(made)
        }
        Admission::Elsewhere => Err(vm.fail_elsewhere(
            1,
            MessageType::GetPromiseCommand,
            ByteStr::new(),
        )),
        Admission::Stopped(error) => Err(error),
    }
}

/// Looks whether a promise is completed: the handle's notification says so, and with what.
pub fn sys_peek_promise(vm: &mut MachineState, key: ByteStr) -> Result<NotificationHandle, Error>
    ensures { Calls peek_promise_command_difference (Call.PeekPromise key) (λ handle. Answer.Handle handle) [] PeekPromiseCommand [] vm.old result vm.new }
{
    match vm.admit(None) {
        Admission::Admitted => {
            let ignoring = checks_off(vm.options.non_determinism_checks);
            let made = vm.active.peek_promise(vm.alloc, ignoring, key);
            vm.settle(made)
        }
        Admission::Elsewhere => Err(vm.fail_elsewhere(
            1,
            MessageType::PeekPromiseCommand,
            ByteStr::new(),
        )),
        Admission::Stopped(error) => Err(error),
    }
}

/// Completes a promise: the handle's notification says whether that was done.
pub fn sys_complete_promise(
    vm: &mut MachineState,
    key: ByteStr,
    value: NonEmptyValue,
    options: PayloadOptions,
) -> Result<NotificationHandle, Error>
    ensures { Calls complete_promise_command_difference (Call.CompletePromise key value options) (λ handle. Answer.Handle handle) [] CompletePromiseCommand [] vm.old result vm.new }
{
    let number = vm.version.number();
    let refused = refuse_value(number, &value);
    let refusal = refusal_error(vm.version, refused, "");
    match vm.admit(refusal) {
        Admission::Admitted => {
            let ignoring = checks_off(vm.options.non_determinism_checks);
            let made = vm
                .active
                .complete_promise(vm.alloc, ignoring, key, value, options);
            vm.settle(made)
        }
        Admission::Elsewhere => Err(vm.fail_elsewhere(
            1,
            MessageType::CompletePromiseCommand,
            ByteStr::new(),
        )),
        Admission::Stopped(error) => Err(error),
    }
}
