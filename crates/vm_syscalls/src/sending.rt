// A call of another handler whose answer is not waited for, of a machine in any phase.
ghost use Rattle.std.specs.Prelude.{◌≡◌, codes, None};
ghost use Rattle.journal_model.specs.Refusal.{first_refusal, send_tests};
ghost use Rattle.journal_model.specs.Run.{invoke_time, name_or_empty};
ghost use Rattle.journal_model.specs.declared.call.Answer.{Answer};
ghost use Rattle.journal_model.specs.declared.call.Call.{Call};
ghost use Rattle.protocol_differences.specs.Calls.{one_way_call_command_difference};
ghost use Rattle.protocol_types.specs.declared.message_type.MessageType.TheVariants.{OneWayCallCommand};
ghost use Rattle.vm_machine.specs.Calls.{Calls};
ghost use Rattle.vm_syscalls.specs.SendAnswer.{sent};

use bytes::{ByteStr, Bytes};
use journal_model::{Moment, NotificationHandle, PayloadOptions, Target};
use protocol_errors::Error;
use protocol_types::MessageType;
use vm_calls::{CallError, or_empty};
use vm_machine::{Admission, MachineState, checks_off, refusal_error};
use vm_refusals::{refuse_target, to_millis};
use vm_types::SendHandle;
use vm_waiting::send;

// The moment in milliseconds, 0 where there is none. Of one that is refused nothing is said.
fn invoke_time(execution_time: &Option<Moment>) -> u64
    ensures { first_refusal (send_tests execution_time.now) ≡ None → result ≡ invoke_time execution_time.now }
{
    match execution_time {
        None => 0,
        Some(moment) => to_millis(Moment::new(moment.duration())).unwrap_or(0),
    }
}

// What a send was made as, as its answer.
fn sent<M>(made: Result<NotificationHandle, CallError<M>>) -> Result<SendHandle, CallError<M>>
    ensures { result ≡ sent made }
{
    match made {
        Ok(invocation_id_notification_handle) => Ok(SendHandle {
            invocation_id_notification_handle,
        }),
        Err(error) => Err(error),
    }
}

/// Calls another handler without waiting for its answer, at a moment, or at once where none is given: the notification tells the
/// invocation's id.
pub fn sys_send(
    vm: &mut MachineState,
    target: Target,
    parameter: Bytes,
    execution_time: Option<Moment>,
    name: Option<ByteStr>,
    options: PayloadOptions,
) -> Result<SendHandle, Error>
    ensures { Calls one_way_call_command_difference (Call.Send target parameter execution_time name options) (λ made. Answer.Handle made.invocation_id_notification_handle) (codes "send delay") OneWayCallCommand (name_or_empty name) vm.old result vm.new }
{
    let time = invoke_time(&execution_time);
    let number = vm.version.number();
    let refused = refuse_target(number, &target, execution_time);
    let refusal = refusal_error(vm.version, refused, "send delay");
    match vm.admit(refusal) {
        Admission::Admitted => {
            let ignoring = checks_off(vm.options.non_determinism_checks);
            let put = send(
                &mut vm.active,
                vm.alloc,
                vm.options.implicit_cancellation,
                ignoring,
                target,
                parameter,
                time,
                name,
                options,
            );
            let made = sent(put);
            vm.settle(made)
        }
        Admission::Elsewhere => Err(vm.fail_elsewhere(
            1,
            MessageType::OneWayCallCommand,
            or_empty(name),
        )),
        Admission::Stopped(error) => Err(error),
    }
}
