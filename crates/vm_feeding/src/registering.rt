// A read takes its number: its value is known, or the runtime is asked for it.
ghost use Rattle.std.specs.Prelude.{◌≡◌, ◌↔◌, OnOk, OnErr, IsErrOf};
ghost use Rattle.protocol_stream.specs.Frame.{spelled};
ghost use Rattle.protocol_stream.specs.declared.encoder.EncodingError.TheVariants.{PayloadTooLong};
ghost use Rattle.vm_context.specs.Output.{with_frame};
ghost use Rattle.vm_feeding.specs.EphemeralStateReads.{IsReadTooLong, read_message, RegisterCauses, SendCauses, Registers, Sends, AsksRead};

use bytes::ByteStr;
use journal_model::Value;
use protocol_controls::GetStateEphemeralCommandMessage;
use protocol_errors::Error;
use protocol_stream::EncodingError;
use std::alloc::{AllocError, Global};
use vm_context::{IdsExhausted, Output};
use vm_machine::{MachineState, about_nothing};
use vm_types::{EphemeralCompletionId, RegisterError};

// What the machine fails with where a read has no number: it is about no command.
fn register_cause(alloc: Global, error: RegisterError) -> Result<Error, AllocError>
    ensures { RegisterCauses error result }
{
    match error {
        RegisterError::IdsExhausted => about_nothing(alloc, &IdsExhausted),
        RegisterError::OutOfMemory => Err(AllocError),
    }
}

// What it fails with where the runtime was not asked: it is about no command.
fn send_cause(alloc: Global, error: EncodingError) -> Result<Error, AllocError>
    ensures { SendCauses error result }
{
    match error {
        EncodingError::PayloadTooLong => about_nothing(alloc, &error),
        EncodingError::OutOfMemory => Err(AllocError),
    }
}

/// A read whose value is known.
pub(crate) fn register(vm: &mut MachineState, value: Value) -> Result<EphemeralCompletionId, Error>
    ensures { Registers value vm.old result vm.new }
{
    match vm.reads.register_ready(value) {
        Ok(id) => Ok(id),
        Err(error) => {
            let cause = register_cause(vm.alloc, error);
            Err(vm.fail(cause))
        }
    }
}

// The frame that asks for a key under this number, whole or not at all; behind the end nothing.
fn write_read(
    output: &mut Output,
    alloc: Global,
    number: u32,
    key: ByteStr,
) -> Result<(), EncodingError>
    ensures ok { OnOk result (output.new ≡ with_frame (spelled (read_message output.old.version number key)) output.old) }
    ensures err { OnErr result (output.new ≡ output.old) }
    ensures too_long { IsErrOf result PayloadTooLong ↔ IsReadTooLong number key output.old }
{
    let message = GetStateEphemeralCommandMessage {
        ephemeral_completion_id: number,
        key: key.into_bytes(),
    };
    let sent = output.send(alloc, &message);
    drop(message);
    sent
}

// Asks the runtime for a key, of a read that has its number.
fn send(
    vm: &mut MachineState,
    id: EphemeralCompletionId,
    key: ByteStr,
) -> Result<EphemeralCompletionId, Error>
    ensures { Sends id key vm.old result vm.new }
{
    match write_read(&mut vm.active.output, vm.alloc, id.number, key) {
        Ok(()) => Ok(id),
        Err(error) => {
            let cause = send_cause(vm.alloc, error);
            Err(vm.fail(cause))
        }
    }
}

/// A read that the runtime is asked for.
pub(crate) fn ask(vm: &mut MachineState, key: ByteStr) -> Result<EphemeralCompletionId, Error>
    ensures { AsksRead key vm.old result vm.new }
{
    match vm.reads.register_in_flight() {
        Ok(id) => send(vm, id, key),
        Err(error) => {
            drop(key);
            let cause = register_cause(vm.alloc, error);
            Err(vm.fail(cause))
        }
    }
}
