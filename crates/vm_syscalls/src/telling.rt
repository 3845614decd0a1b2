// The calls that tell something to the outside or to another invocation, of a machine in any phase.
ghost use Rattle.std.specs.Prelude.{◌≡◌, []};
ghost use Rattle.journal_model.specs.declared.call.Answer.{Answer};
ghost use Rattle.journal_model.specs.declared.call.Call.{Call};
ghost use Rattle.protocol_differences.specs.Control.{output_command_difference};
ghost use Rattle.protocol_differences.specs.Invocations.{complete_awakeable_command_difference, send_signal_command_difference};
ghost use Rattle.protocol_types.specs.declared.message_type.MessageType.TheVariants.{CompleteAwakeableCommand, OutputCommand, SendSignalCommand};
ghost use Rattle.vm_machine.specs.Calls.{Calls};

use bytes::ByteStr;
use journal_model::{NonEmptyValue, PayloadOptions};
use protocol_errors::Error;
use protocol_types::MessageType;
use vm_machine::{Admission, MachineState, checks_off, refusal_error};
use vm_refusals::refuse_value;

/// Cancels another invocation.
pub fn sys_cancel_invocation(vm: &mut MachineState, target_id: ByteStr) -> Result<(), Error>
    ensures { Calls send_signal_command_difference (Call.Cancel target_id) (λ done. Answer.Done) [] SendSignalCommand [] vm.old result vm.new }
{
    match vm.admit(None) {
        Admission::Admitted => {
            let ignoring = checks_off(vm.options.non_determinism_checks);
            let made = vm.active.cancel(vm.alloc, ignoring, target_id);
            vm.settle(made)
        }
        Admission::Elsewhere => Err(vm.fail_elsewhere(
            0,
            MessageType::SendSignalCommand,
            ByteStr::new(),
        )),
        Admission::Stopped(error) => Err(error),
    }
}

/// Sends a signal of a name to another invocation.
pub fn sys_complete_signal(
    vm: &mut MachineState,
    target_id: ByteStr,
    name: ByteStr,
    value: NonEmptyValue,
) -> Result<(), Error>
    ensures { Calls send_signal_command_difference (Call.CompleteSignal target_id name value) (λ done. Answer.Done) [] SendSignalCommand [] vm.old result vm.new }
{
    let number = vm.version.number();
    let refused = refuse_value(number, &value);
    let refusal = refusal_error(vm.version, refused, "");
    match vm.admit(refusal) {
        Admission::Admitted => {
            let ignoring = checks_off(vm.options.non_determinism_checks);
            let made = vm
                .active
                .complete_signal(vm.alloc, ignoring, target_id, name, value);
            vm.settle(made)
        }
        Admission::Elsewhere => Err(vm.fail_elsewhere(
            0,
            MessageType::SendSignalCommand,
            ByteStr::new(),
        )),
        Admission::Stopped(error) => Err(error),
    }
}

/// Completes the awakeable of this text.
pub fn sys_complete_awakeable(
    vm: &mut MachineState,
    id: ByteStr,
    value: NonEmptyValue,
    options: PayloadOptions,
) -> Result<(), Error>
    ensures { Calls complete_awakeable_command_difference (Call.CompleteAwakeable id value options) (λ done. Answer.Done) [] CompleteAwakeableCommand [] vm.old result vm.new }
{
    let number = vm.version.number();
    let refused = refuse_value(number, &value);
    let refusal = refusal_error(vm.version, refused, "");
    match vm.admit(refusal) {
        Admission::Admitted => {
            let ignoring = checks_off(vm.options.non_determinism_checks);
            let made = vm
                .active
                .complete_awakeable(vm.alloc, ignoring, id, value, options);
            vm.settle(made)
        }
        Admission::Elsewhere => Err(vm.fail_elsewhere(
            0,
            MessageType::CompleteAwakeableCommand,
            ByteStr::new(),
        )),
        Admission::Stopped(error) => Err(error),
    }
}

/// Puts out the result of the invocation.
pub fn sys_write_output(
    vm: &mut MachineState,
    value: NonEmptyValue,
    options: PayloadOptions,
) -> Result<(), Error>
    ensures { Calls output_command_difference (Call.Output value options) (λ done. Answer.Done) [] OutputCommand [] vm.old result vm.new }
{
    let number = vm.version.number();
    let refused = refuse_value(number, &value);
    let refusal = refusal_error(vm.version, refused, "");
    match vm.admit(refusal) {
        Admission::Admitted => {
            let ignoring = checks_off(vm.options.non_determinism_checks);
            let made = vm.active.output(vm.alloc, ignoring, value, options);
            vm.settle(made)
        }
        Admission::Elsewhere => Err(vm.fail_elsewhere(
            0,
            MessageType::OutputCommand,
            ByteStr::new(),
        )),
        Admission::Stopped(error) => Err(error),
    }
}
