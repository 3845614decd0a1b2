// An awakeable, of a machine in any phase.
ghost use Rattle.std.specs.Prelude.{codes, None};
ghost use Rattle.vm_calls.specs.Handles.{LacksSignal};
ghost use Rattle.vm_machine.specs.Steps.{IsMissed, Steps};
ghost use Rattle.vm_feeding.specs.Handles.{started_id, MakesAwakeable, IsNamed, IsUnsupported, IsAwakeable, IsNoAwakeable};

use crate::answering::answer;
use bytes::{ByteStr, Bytes};
use protocol_errors::{Error, codes};
use protocol_records::StartMessage;
use std::alloc::Global;
use vm_calls::{Active, NumberError};
use vm_machine::{Admission, MachineState};
use vm_types::{AwakeableHandle, JournalReplay};

// The awakeable is named by the invocation's id as its start has it.
fn named_by(
    active: &mut Active,
    alloc: Global,
    start: &Option<StartMessage>,
) -> Result<AwakeableHandle, NumberError>
    ensures { MakesAwakeable (started_id start.now) active.old result active.new }
{
    match start {
        Some(start) => active.awakeable(alloc, &start.id),
        None => active.awakeable(alloc, &Bytes::new()),
    }
}

fn fail_unsupported(vm: &mut MachineState) -> Error
    ensures { IsUnsupported vm.old result vm.new }
{
    vm.fail(Ok(Error::new(
        codes::UNSUPPORTED_FEATURE,
        ByteStr::from_static("awakeables need journal replay"),
    )))
}

// Makes the call, where calls are made.
fn make(vm: &mut MachineState) -> Result<AwakeableHandle, Error>
    ensures { IsAwakeable vm.old result vm.new }
{
    match vm.options.journal_replay {
        JournalReplay::Enabled => {
            let made = named_by(&mut vm.active, vm.alloc, &vm.start);
            answer(vm, made)
        }
        JournalReplay::Disabled => Err(fail_unsupported(vm)),
    }
}

// Fails, where no calls are made and numbers of signals are known.
fn miss_numbered(vm: &mut MachineState) -> Error
    ensures { IsMissed (LacksSignal vm.old.active) (codes "awakeable") vm.old result vm.new }
{
    if vm.active.lacks_signal() {
        return vm.fail_exhausted();
    }
    vm.fail_unexpected("awakeable")
}

// Fails, where no calls are made.
fn miss(vm: &mut MachineState) -> Error
    ensures { IsNoAwakeable vm.old result vm.new }
{
    match vm.options.journal_replay {
        JournalReplay::Enabled => miss_numbered(vm),
        JournalReplay::Disabled => fail_unsupported(vm),
    }
}

/// A signal that the outside completes by the text that names it. Nothing is recorded of it.
///
/// Where the journal of earlier attempts is not replayed the machine fails in each of its phases, since the numbers that they have
/// taken are not known.
pub fn sys_awakeable(vm: &mut MachineState) -> Result<AwakeableHandle, Error>
    ensures text { IsNamed (started_id vm.old.start) vm.old.active result }
    ensures steps { Steps IsAwakeable IsNoAwakeable None vm.old result vm.new }
{
    match vm.admit(None) {
        Admission::Admitted => make(vm),
        Admission::Elsewhere => Err(miss(vm)),
        Admission::Stopped(error) => Err(error),
    }
}
