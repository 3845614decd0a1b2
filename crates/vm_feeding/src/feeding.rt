// Bytes come, in any cut.
ghost use Rattle.std.specs.Prelude.{◌≡◌};
ghost use Rattle.vm_feeding.specs.InputBytes.{has_failed, lacks_memory, DecodingCauses, IsUnread, LooksForNext, TakesAll, IsFed};

use crate::failing::let_fail;
use bytes::Bytes;
use protocol_errors::Error;
use protocol_stream::{DecodingError, RawMessage};
use std::alloc::{AllocError, Global};
use vm_machine::{MachineState, about_nothing};
use vm_start::Phase;

// Whether it takes no message any more.
fn has_failed(phase: &Phase) -> bool
    ensures { result ≡ has_failed phase.now }
{
    matches!(phase, Phase::Failed(_))
}

// Whether memory was refused.
fn lacks_memory(error: &DecodingError) -> bool
    ensures { result ≡ lacks_memory error.now }
{
    matches!(error, DecodingError::OutOfMemory)
}

// What a machine fails with that cannot read what comes.
fn decoding_cause(alloc: Global, error: &DecodingError) -> Result<Error, AllocError>
    ensures { DecodingCauses error.now result }
{
    if lacks_memory(error) {
        return Err(AllocError);
    }
    about_nothing(alloc, error)
}

// Fails with why what comes cannot be read.
fn fail_unread(vm: &mut MachineState, error: DecodingError)
    ensures { IsUnread error vm.old vm.new }
{
    let cause = decoding_cause(vm.alloc, &error);
    drop(error);
    let_fail(vm, cause);
}

// The next message that is taken; where there is none, the machine has failed, or fails, or none is whole.
fn next_message(vm: &mut MachineState) -> Option<RawMessage>
    ensures { LooksForNext vm.old result vm.new }
{
    if has_failed(&vm.phase) {
        return None;
    }
    match vm.decoder.consume_next() {
        Ok(next) => next,
        Err(error) => {
            fail_unread(vm, error);
            None
        }
    }
}

// Takes whole messages one after the other, until none is whole or the machine has failed.
fn take_each(vm: &mut MachineState)
    ensures { TakesAll vm.old vm.new }
{
    while let Some(message) = next_message(vm) {
        vm.take_message(message);
    }
}

/// Bytes have come: they are put behind those that were not read, and the messages that are whole then are taken, until the machine
/// has failed. One that has failed keeps what comes and reads none of it.
pub fn notify_input(vm: &mut MachineState, buffer: Bytes)
    ensures { IsFed buffer vm.old vm.new }
{
    let pushed = vm.decoder.push(buffer.as_slice());
    drop(buffer);
    match pushed {
        Ok(()) => take_each(vm),
        Err(refused) => let_fail(vm, Err(refused)),
    }
}
