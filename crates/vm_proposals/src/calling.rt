// A run is called, of a machine in any phase.
ghost use Rattle.std.specs.Prelude.{IfOk};
ghost use Rattle.journal_model.specs.Run.{Invocation};
ghost use Rattle.journal_model.specs.declared.call.Call.{Call};
ghost use Rattle.attempt_model.specs.Machine.{Machine};
ghost use Rattle.vm_calls.specs.Active.{Sees};
ghost use Rattle.vm_proposals.specs.RunCallEffects.{CallsRun, KeepsBodiesOf};

use crate::running::run;
use bytes::ByteStr;
use protocol_errors::Error;
use protocol_types::MessageType;
use vm_machine::{Admission, MachineState, checks_off};
use vm_refusals::RunHandle;

// Makes the call, or fails with why it is not made.
fn call_run(vm: &mut MachineState, name: ByteStr) -> Result<RunHandle, Error>
    ensures { CallsRun name vm.old result vm.new }
{
    match vm.admit(None) {
        Admission::Admitted => {
            let ignoring = checks_off(vm.options.non_determinism_checks);
            let made = run(&mut vm.active, &mut vm.runs, vm.alloc, ignoring, name);
            vm.settle(made)
        }
        Admission::Elsewhere => Err(vm.fail_elsewhere(1, MessageType::RunCommand, name)),
        Admission::Stopped(error) => Err(error),
    }
}

/// Calls a run: the handle's notification brings its outcome. Where the outcome is known the run is `replayed`; else its body is to be
/// executed, once an await asks for that.
pub fn sys_run(vm: &mut MachineState, name: ByteStr) -> Result<RunHandle, Error>
    ensures calls { CallsRun name vm.old result vm.new }
    ensures bodies { IfOk result (λ run. (given : Invocation) (m : Machine) → Sees given vm.old.active m → KeepsBodiesOf m (Call.Run name) vm.old.runs vm.new.runs) }
{
    call_run(vm, name)
}
