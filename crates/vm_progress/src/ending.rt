// The end of an attempt.
ghost use Rattle.std.specs.Prelude.{◌≡◌, []};
ghost use Rattle.protocol_types.specs.declared.message_type.MessageType.TheVariants.{End};
ghost use Rattle.vm_start.specs.Phases.{kept_error};
ghost use Rattle.vm_waiting.specs.SuspensionFrames.{WritesFrame};
ghost use Rattle.vm_progress.specs.EndEffects.{end_place, ClosesEnd, WritesEnd, EndsAt, EndsAs};

use crate::asleep::fail_for_memory;
use protocol_errors::Error;
use protocol_records::EndMessage;
use protocol_stream::EncodingError;
use std::alloc::Global;
use std::mem::replace;
use vm_context::Output;
use vm_machine::MachineState;
use vm_start::{Phase, again};

/// Where a machine that has not failed stands to an end.
#[derive(Clone, Copy, Debug, PartialEq, Eq)]
pub enum EndPlace {
    /// It has ended, or was suspended.
    Behind,
    /// It is behind its journal.
    Processing,
    /// It cannot end.
    Elsewhere,
}

fn end_place(phase: &Phase, is_replaying: bool) -> EndPlace
    ensures { result ≡ end_place phase.now is_replaying }
{
    match phase {
        Phase::Closed => EndPlace::Behind,
        Phase::Active => {
            if is_replaying {
                return EndPlace::Elsewhere;
            }
            EndPlace::Processing
        }
        Phase::WaitingStart | Phase::WaitingReplayEntries { .. } | Phase::Failed(_) => {
            EndPlace::Elsewhere
        }
    }
}

fn write_end(output: &mut Output, alloc: Global) -> Result<(), EncodingError>
    ensures { WritesFrame End [] output.old result output.new }
{
    let message = EndMessage {};
    let sent = output.send(alloc, &message);
    drop(message);
    sent
}

// What becomes of a machine whose end was written, or could not be. Its frame is never too long.
fn close_end(vm: &mut MachineState, written: Result<(), EncodingError>) -> Result<(), Error>
    ensures { ClosesEnd written vm.old result vm.new }
{
    match written {
        Ok(()) => {
            vm.active.output.send_eof();
            drop(replace(&mut vm.phase, Phase::Closed));
            Ok(())
        }
        Err(_) => Err(fail_for_memory(vm)),
    }
}

// Ends an attempt behind its journal.
fn end(vm: &mut MachineState) -> Result<(), Error>
    ensures { WritesEnd vm.old result vm.new }
{
    let written = write_end(&mut vm.active.output, vm.alloc);
    close_end(vm, written)
}

// Ends a machine that has not failed.
fn end_at(vm: &mut MachineState) -> Result<(), Error>
    ensures { EndsAt (end_place vm.old.phase vm.old.active.is_replaying) vm.old result vm.new }
{
    match end_place(&vm.phase, vm.active.is_replaying) {
        EndPlace::Behind => Ok(()),
        EndPlace::Processing => end(vm),
        EndPlace::Elsewhere => Err(vm.fail_unexpected("end invocation")),
    }
}

/// Ends the attempt: writes its end, behind which nothing is written. Behind an end or a suspension nothing is done.
pub fn sys_end(vm: &mut MachineState) -> Result<(), Error>
    ensures { EndsAs (kept_error vm.old.phase) vm.old result vm.new }
{
    match again(&vm.phase) {
        Some(answer) => Err(answer),
        None => end_at(vm),
    }
}
