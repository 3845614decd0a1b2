// The reads of the object's state, of a machine in any phase.
ghost use Rattle.std.specs.Prelude.{◌≡◌, not, IfOk};
ghost use Rattle.journal_model.specs.Run.{name_or_empty};
ghost use Rattle.journal_model.specs.declared.call.Call.{Call};
ghost use Rattle.vm_context.specs.Eager.{is_known};
ghost use Rattle.vm_progress.specs.StateReadEffects.{SettlesRead, NextCauses, MissesNext, value_read, keys_read, StepsOfRead};

use crate::read_cause;
use bytes::ByteStr;
use journal_model::{NotificationHandle, PayloadOptions};
use protocol_differences::CommandRelationship;
use protocol_errors::{EMPTY_GET_EAGER_STATE, EMPTY_GET_EAGER_STATE_KEYS, Error, FixedError};
use protocol_stream::CommandType;
use std::alloc::{AllocError, Global};
use vm_calls::Active;
use vm_commands::Command;
use vm_machine::{Admission, MachineState, checks_off, missed_cause};
use vm_start::Phase;
use vm_state_reads::{ReadError, state_get, state_get_keys};

// The handle of a read, or what the machine fails with.
fn settle_read<L: Command, E: Command>(
    vm: &mut MachineState,
    made: Result<NotificationHandle, ReadError<L, E>>,
    empty: FixedError,
) -> Result<NotificationHandle, Error>
    ensures { SettlesRead L.difference E.difference empty made vm.old result vm.new }
{
    match made {
        Ok(handle) => Ok(handle),
        Err(error) => {
            let cause = read_cause(vm.alloc, &vm.active.journal, empty, &error);
            drop(error);
            Err(vm.fail(cause))
        }
    }
}

// Why a read is not made in this phase; the error is about the command that would be asked for next.
fn next_cause(
    alloc: Global,
    phase: &Phase,
    active: &Active,
    ty: CommandType,
) -> Result<Error, AllocError>
    ensures { IfOk result (NextCauses phase.now active.now ty) }
{
    let error = missed_cause(alloc, phase, active, 1, ByteStr::from_static(ty.words()))?;
    let next = CommandRelationship::Next { ty, name: None };
    match active.journal.resolve_related_command(next) {
        Ok(command) => Ok(error.with_related_command_metadata(command)),
        Err(refused) => {
            drop(error);
            Err(refused)
        }
    }
}

// A read is asked for where no calls are made: no command is counted, and the machine fails.
fn fail_next(vm: &mut MachineState, ty: CommandType) -> Error
    ensures { MissesNext ty vm.old result vm.new }
{
    let cause = next_cause(vm.alloc, &vm.phase, &vm.active, ty);
    vm.fail(cause)
}

/// Reads a key of the object's state: the handle's notification brings the value, or that there is none.
pub fn sys_state_get(
    vm: &mut MachineState,
    key: ByteStr,
    name: Option<ByteStr>,
    options: PayloadOptions,
) -> Result<NotificationHandle, Error>
    ensures { StepsOfRead value_read (Call.StateGet key name options) (λ active. is_known active.state key) (name_or_empty name) vm.old result vm.new }
{
    match vm.admit(None) {
        Admission::Admitted => {
            let ignoring = checks_off(vm.options.non_determinism_checks);
            let made = state_get(&mut vm.active, vm.alloc, ignoring, key, name, options);
            settle_read(vm, made, EMPTY_GET_EAGER_STATE)
        }
        Admission::Elsewhere => Err(fail_next(vm, CommandType::GetState)),
        Admission::Stopped(error) => Err(error),
    }
}

/// Reads the keys of the object's state that have a value, in byte order: the handle's notification brings them.
pub fn sys_state_get_keys(
    vm: &mut MachineState,
    name: Option<ByteStr>,
) -> Result<NotificationHandle, Error>
    ensures { StepsOfRead keys_read (Call.StateGetKeys name) (λ active. not active.state.is_partial) (name_or_empty name) vm.old result vm.new }
{
    match vm.admit(None) {
        Admission::Admitted => {
            let ignoring = checks_off(vm.options.non_determinism_checks);
            let made = state_get_keys(&mut vm.active, vm.alloc, ignoring, name);
            settle_read(vm, made, EMPTY_GET_EAGER_STATE_KEYS)
        }
        Admission::Elsewhere => Err(fail_next(vm, CommandType::GetStateKeys)),
        Admission::Stopped(error) => Err(error),
    }
}
