// The calls that write and clear the object's state, of a machine in any phase.
ghost use Rattle.std.specs.Prelude.{◌≡◌, []};
ghost use Rattle.journal_model.specs.Run.{name_or_empty};
ghost use Rattle.journal_model.specs.declared.call.Answer.{Answer};
ghost use Rattle.journal_model.specs.declared.call.Call.{Call};
ghost use Rattle.protocol_differences.specs.State.{clear_all_state_command_difference, clear_state_command_difference, set_state_command_difference};
ghost use Rattle.protocol_types.specs.declared.message_type.MessageType.TheVariants.{ClearAllStateCommand, ClearStateCommand, SetStateCommand};
ghost use Rattle.vm_machine.specs.Calls.{Calls};

use bytes::{ByteStr, Bytes};
use journal_model::PayloadOptions;
use protocol_errors::Error;
use protocol_types::MessageType;
use vm_calls::or_empty;
use vm_machine::{Admission, MachineState, checks_off};

/// Sets a key of the state. Whether recorded bytes of another value stand is for the options to say.
pub fn sys_state_set(
    vm: &mut MachineState,
    key: ByteStr,
    value: Bytes,
    name: Option<ByteStr>,
    options: PayloadOptions,
) -> Result<(), Error>
    ensures { Calls set_state_command_difference (Call.StateSet key value name options) (λ done. Answer.Done) [] SetStateCommand (name_or_empty name) vm.old result vm.new }
{
    match vm.admit(None) {
        Admission::Admitted => {
            let ignoring = checks_off(vm.options.non_determinism_checks);
            let made = vm
                .active
                .state_set(vm.alloc, ignoring, key, value, name, options);
            vm.settle(made)
        }
        Admission::Elsewhere => Err(vm.fail_elsewhere(
            0,
            MessageType::SetStateCommand,
            or_empty(name),
        )),
        Admission::Stopped(error) => Err(error),
    }
}

/// Clears a key of the state.
pub fn sys_state_clear(
    vm: &mut MachineState,
    key: ByteStr,
    name: Option<ByteStr>,
) -> Result<(), Error>
    ensures { Calls clear_state_command_difference (Call.StateClear key name) (λ done. Answer.Done) [] ClearStateCommand (name_or_empty name) vm.old result vm.new }
{
    match vm.admit(None) {
        Admission::Admitted => {
            let ignoring = checks_off(vm.options.non_determinism_checks);
            let made = vm.active.state_clear(vm.alloc, ignoring, key, name);
            vm.settle(made)
        }
        Admission::Elsewhere => Err(vm.fail_elsewhere(
            0,
            MessageType::ClearStateCommand,
            or_empty(name),
        )),
        Admission::Stopped(error) => Err(error),
    }
}

/// Clears the state.
pub fn sys_state_clear_all(vm: &mut MachineState, name: Option<ByteStr>) -> Result<(), Error>
    ensures { Calls clear_all_state_command_difference (Call.StateClearAll name) (λ done. Answer.Done) [] ClearAllStateCommand (name_or_empty name) vm.old result vm.new }
{
    match vm.admit(None) {
        Admission::Admitted => {
            let ignoring = checks_off(vm.options.non_determinism_checks);
            let made = vm.active.state_clear_all(vm.alloc, ignoring, name);
            vm.settle(made)
        }
        Admission::Elsewhere => Err(vm.fail_elsewhere(
            0,
            MessageType::ClearAllStateCommand,
            or_empty(name),
        )),
        Admission::Stopped(error) => Err(error),
    }
}
