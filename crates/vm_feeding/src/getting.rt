// The object's state is read ephemerally.
ghost use Rattle.std.specs.Prelude.{◌≡◌, ◌≤◌, ◌^◌, codes, Err};
ghost use Rattle.vm_context.specs.Eager.{told_value};
ghost use Rattle.vm_machine.specs.Steps.{IsMissed};
ghost use Rattle.vm_feeding.specs.Refusals.{lacks_reads};
ghost use Rattle.vm_feeding.specs.EphemeralStateReads.{Refuses, AsksWhere, Gets, IsReplayed, GetsIn, MissesIn, IsGot};

use crate::refusal::{ReadRefusal, lacks_reads};
use crate::registering::{ask, register};
use bytes::ByteStr;
use journal_model::Value;
use protocol_errors::{EPHEMERAL_COMMAND_DURING_REPLAY, EphemeralStateGetWithClosedInput, Error};
use vm_context::EagerGetState;
use vm_machine::{Admission, MachineState, about_nothing};
use vm_types::EphemeralCompletionId;

// Fails with why the read is not made.
fn refuse(vm: &mut MachineState, refusal: ReadRefusal) -> Error
    ensures { Refuses refusal vm.old (Err result) vm.new }
{
    let cause = about_nothing(vm.alloc, &refusal);
    drop(refusal);
    vm.fail(cause)
}

// A read of a key that has to be asked for.
fn get_unknown(vm: &mut MachineState, key: ByteStr) -> Result<EphemeralCompletionId, Error>
    ensures { AsksWhere vm.old.is_input_closed key vm.old result vm.new }
{
    if vm.is_input_closed {
        let error = EphemeralStateGetWithClosedInput::new(key);
        return Err(refuse(vm, ReadRefusal::InputClosed(error)));
    }
    ask(vm, key)
}

// A read behind the journal.
fn get(vm: &mut MachineState, key: ByteStr) -> Result<EphemeralCompletionId, Error>
    ensures { Gets (told_value vm.old.active.state key) key vm.old result vm.new }
{
    match vm.active.state.get(&key) {
        Ok(EagerGetState::Value(value)) => register(vm, Value::Success(value)),
        Ok(EagerGetState::Empty) => register(vm, Value::Void),
        Ok(EagerGetState::Unknown) => get_unknown(vm, key),
        Err(refused) => Err(vm.fail(Err(refused))),
    }
}

// A read in replay.
fn get_in_replay(vm: &mut MachineState) -> Error
    ensures { IsReplayed vm.old (Err result) vm.new }
{
    vm.fail(Ok(EPHEMERAL_COMMAND_DURING_REPLAY.into()))
}

// A read of a machine of which calls are made.
fn make(vm: &mut MachineState, key: ByteStr) -> Result<EphemeralCompletionId, Error>
    ensures { GetsIn (lacks_reads vm.old.version) key vm.old result vm.new }
{
    if lacks_reads(vm.version) {
        return Err(refuse(vm, ReadRefusal::Unsupported(vm.version)));
    }
    if vm.active.is_replaying {
        return Err(get_in_replay(vm));
    }
    get(vm, key)
}

// A read of a machine of which no calls are made, and whose version has reads.
fn miss_numbered(vm: &mut MachineState) -> Error
    ensures { IsMissed (2 ^ 32 ≤ vm.old.reads.next) (codes "SysEphemeralStateGet") vm.old result vm.new }
{
    if vm.reads.is_exhausted() {
        return vm.fail_exhausted();
    }
    vm.fail_unexpected("SysEphemeralStateGet")
}

// A read of a machine of which no calls are made.
fn miss(vm: &mut MachineState) -> Error
    ensures { MissesIn (lacks_reads vm.old.version) vm.old result vm.new }
{
    if lacks_reads(vm.version) {
        return refuse(vm, ReadRefusal::Unsupported(vm.version));
    }
    miss_numbered(vm)
}

/// Reads a key of the object's state without recording it. The answer is there at once where the key is known; else the runtime
/// is asked for it.
pub fn ephemeral_state_get(
    vm: &mut MachineState,
    key: ByteStr,
) -> Result<EphemeralCompletionId, Error>
    ensures { IsGot key vm.old result vm.new }
{
    match vm.admit(None) {
        Admission::Admitted => make(vm, key),
        Admission::Elsewhere => Err(miss(vm)),
        Admission::Stopped(error) => Err(error),
    }
}
