// A call of another handler, of a machine in any phase.
ghost use Rattle.std.specs.Prelude.{◌≡◌, []};
ghost use Rattle.journal_model.specs.Run.{name_or_empty};
ghost use Rattle.journal_model.specs.declared.call.Answer.{Answer};
ghost use Rattle.journal_model.specs.declared.call.Call.{Call};
ghost use Rattle.protocol_differences.specs.Calls.{call_command_difference};
ghost use Rattle.protocol_types.specs.declared.message_type.MessageType.TheVariants.{CallCommand};
ghost use Rattle.vm_machine.specs.Calls.{Calls};

use bytes::{ByteStr, Bytes};
use journal_model::{PayloadOptions, Target};
use protocol_errors::Error;
use protocol_types::MessageType;
use vm_calls::or_empty;
use vm_machine::{Admission, MachineState, checks_off, refusal_error};
use vm_refusals::refuse_target;
use vm_types::CallHandle;
use vm_waiting::call;

/// Calls another handler: of the two notifications the first tells the invocation's id, the second brings its answer.
pub fn sys_call(
    vm: &mut MachineState,
    target: Target,
    parameter: Bytes,
    name: Option<ByteStr>,
    options: PayloadOptions,
) -> Result<CallHandle, Error>
    ensures { Calls call_command_difference (Call.Call target parameter name options) (λ made. Answer.Handles made.invocation_id_notification_handle made.call_notification_handle) [] CallCommand (name_or_empty name) vm.old result vm.new }
{
    let number = vm.version.number();
    let refused = refuse_target(number, &target, None);
    let refusal = refusal_error(vm.version, refused, "");
    match vm.admit(refusal) {
        Admission::Admitted => {
            let ignoring = checks_off(vm.options.non_determinism_checks);
            let made = call(
                &mut vm.active,
                vm.alloc,
                vm.options.implicit_cancellation,
                ignoring,
                target,
                parameter,
                name,
                options,
            );
            vm.settle(made)
        }
        Admission::Elsewhere => Err(vm.fail_elsewhere(2, MessageType::CallCommand, or_empty(name))),
        Admission::Stopped(error) => Err(error),
    }
}
