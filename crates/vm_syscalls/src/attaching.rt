// The calls that are about the answer of another invocation, of a machine in any phase.
ghost use Rattle.std.specs.Prelude.{◌≡◌, []};
ghost use Rattle.journal_model.specs.declared.call.Answer.{Answer};
ghost use Rattle.journal_model.specs.declared.call.Call.{Call};
ghost use Rattle.protocol_differences.specs.Invocations.{attach_invocation_command_difference, get_invocation_output_command_difference};
ghost use Rattle.protocol_types.specs.declared.message_type.MessageType.TheVariants.{AttachInvocationCommand, GetInvocationOutputCommand};
ghost use Rattle.vm_machine.specs.Calls.{Calls};

use bytes::ByteStr;
use journal_model::{AttachInvocationTarget, NotificationHandle};
use protocol_errors::Error;
use protocol_types::MessageType;
use vm_machine::{Admission, MachineState, checks_off, refusal_error};
use vm_refusals::refuse_attach;
use vm_waiting::{attach, get_output};

/// Waits for the answer of another invocation: the handle's notification brings it.
pub fn sys_attach_invocation(
    vm: &mut MachineState,
    target: AttachInvocationTarget,
) -> Result<NotificationHandle, Error>
    ensures { Calls attach_invocation_command_difference (Call.Attach target) (λ handle. Answer.Handle handle) [] AttachInvocationCommand [] vm.old result vm.new }
{
    let number = vm.version.number();
    let refused = refuse_attach(number, &target);
    let refusal = refusal_error(vm.version, refused, "");
    match vm.admit(refusal) {
        Admission::Admitted => {
            let ignoring = checks_off(vm.options.non_determinism_checks);
            let made = attach(&mut vm.active, vm.alloc, ignoring, target);
            vm.settle(made)
        }
        Admission::Elsewhere => Err(vm.fail_elsewhere(
            1,
            MessageType::AttachInvocationCommand,
            ByteStr::new(),
        )),
        Admission::Stopped(error) => Err(error),
    }
}

/// Looks whether another invocation has answered: the handle's notification says so, and with what.
pub fn sys_get_invocation_output(
    vm: &mut MachineState,
    target: AttachInvocationTarget,
) -> Result<NotificationHandle, Error>
    ensures { Calls get_invocation_output_command_difference (Call.GetOutput target) (λ handle. Answer.Handle handle) [] GetInvocationOutputCommand [] vm.old result vm.new }
{
    let number = vm.version.number();
    let refused = refuse_attach(number, &target);
    let refusal = refusal_error(vm.version, refused, "");
    match vm.admit(refusal) {
        Admission::Admitted => {
            let ignoring = checks_off(vm.options.non_determinism_checks);
            let made = get_output(&mut vm.active, vm.alloc, ignoring, target);
            vm.settle(made)
        }
        Admission::Elsewhere => Err(vm.fail_elsewhere(
            1,
            MessageType::GetInvocationOutputCommand,
            ByteStr::new(),
        )),
        Admission::Stopped(error) => Err(error),
    }
}
