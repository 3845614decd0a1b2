// The input is read.
ghost use Rattle.std.specs.Prelude.{◌≡◌, None};
ghost use Rattle.vm_feeding.specs.InputAnswer.{IsInputRead, Gives, ReadsAs, ReadsInputs};

use crate::input_of;
use bytes::ByteStr;
use journal_model::Input;
use protocol_errors::Error;
use protocol_records::{InputCommandMessage, StartMessage};
use protocol_types::{MessageType, Version};
use std::alloc::{AllocError, Global};
use vm_calls::Active;
use vm_machine::{Admission, InputError, MachineState, input_cause, read_input};
use vm_types::VMOptions;

/// What becomes of a call that reads the input.
#[derive(Drop)]
pub enum Reading {
    Given(Input),
    /// The machine fails with this.
    Fails(Result<Error, AllocError>),
    /// The machine is in no state in which it is read.
    Elsewhere,
}

// What is given of the input that was read, or why it was not.
fn give(
    alloc: Global,
    version: Version,
    options: VMOptions,
    start: &StartMessage,
    active: &Active,
    read: Result<InputCommandMessage, InputError>,
) -> Reading
    ensures { Gives version options start.now active.now read result }
{
    match read {
        Ok(message) => match input_of(
            alloc,
            version.number(),
            options.fallback_random_seed,
            start,
            message,
        ) {
            Ok(input) => Reading::Given(input),
            Err(refused) => Reading::Fails(Err(refused)),
        },
        Err(error) => {
            let cause = input_cause(alloc, &active.journal, &error);
            drop(error);
            Reading::Fails(cause)
        }
    }
}

// Reads the input of an attempt that replays, of which the start is known.
fn read(
    active: &mut Active,
    alloc: Global,
    version: Version,
    options: VMOptions,
    start: &Option<StartMessage>,
) -> Reading
    ensures { ReadsAs version options active.old.is_replaying start.now active.old result active.new }
{
    if !active.is_replaying {
        return Reading::Elsewhere;
    }
    match start {
        None => Reading::Elsewhere,
        Some(start) => {
            let read = read_input(active, alloc, options.journal_replay);
            give(alloc, version, options, start, active, read)
        }
    }
}

// Reads the input of a machine of which calls are made.
fn make(vm: &mut MachineState) -> Result<Input, Error>
    ensures { ReadsInputs vm.old result vm.new }
{
    match read(&mut vm.active, vm.alloc, vm.version, vm.options, &vm.start) {
        Reading::Given(input) => Ok(input),
        Reading::Fails(cause) => Err(vm.fail(cause)),
        Reading::Elsewhere => Err(vm.fail_elsewhere(0, MessageType::InputCommand, ByteStr::new())),
    }
}

/// Reads the input, which is the first command of each journal. It is read while the machine replays alone.
///
/// Where no start is known the machine is in no state for it either; one that is fed by messages has one then.
pub fn sys_input(vm: &mut MachineState) -> Result<Input, Error>
    ensures { IsInputRead vm.old result vm.new }
{
    match vm.admit(None) {
        Admission::Admitted => make(vm),
        Admission::Elsewhere => {
            Err(vm.fail_elsewhere(0, MessageType::InputCommand, ByteStr::new()))
        }
        Admission::Stopped(error) => Err(error),
    }
}
