// A handler's call is carried out.
ghost use Rattle.vm_start.specs.Phases.{kept_error};
ghost use Rattle.vm_outcomes.specs.CallOutcomes.{CarriesOut, StaysFailed, StaysClosed};

use crate::{CoreVM, VM, awaits, handles, invocations, outside, promises, runs, state};
use journal_model::Call;
use vm_outcomes::CallOutcome;

// Makes the calls of the machine that stand for it.
fn carry_out_by_kind(vm: &mut CoreVM, call: Call) -> CallOutcome
    ensures { CarriesOut call vm.old.state result vm.new.state }
{
    match call {
        Call::StateGet { key, name, options } => state::state_get(vm, key, name, options),
        Call::StateGetKeys { name } => state::state_get_keys(vm, name),
        Call::StateSet {
            key,
            value,
            name,
            options,
        } => state::state_set(vm, key, value, name, options),
        Call::StateClear { key, name } => state::state_clear(vm, key, name),
        Call::StateClearAll { name } => state::state_clear_all(vm, name),
        Call::Sleep { name, wake_up, now } => outside::sleep(vm, name, wake_up, now),
        Call::Call {
            target,
            input,
            name,
            options,
        } => invocations::call(vm, target, input, name, options),
        Call::Send {
            target,
            input,
            execution_time,
            name,
            options,
        } => invocations::send(vm, target, input, execution_time, name, options),
        Call::Awakeable => handles::awakeable(vm),
        Call::CompleteAwakeable { id, value, options } => {
            outside::complete_awakeable(vm, id, value, options)
        }
        Call::Signal { name } => handles::signal(vm, name),
        Call::CompleteSignal {
            target_id,
            name,
            value,
        } => outside::complete_signal(vm, target_id, name, value),
        Call::GetPromise { key } => promises::get_promise(vm, key),
        Call::PeekPromise { key } => promises::peek_promise(vm, key),
        Call::CompletePromise {
            key,
            value,
            options,
        } => promises::complete_promise(vm, key, value, options),
        Call::Run { name } => runs::run(vm, name),
        Call::Cancel { target_id } => outside::cancel(vm, target_id),
        Call::Attach(target) => invocations::attach(vm, target),
        Call::GetOutput(target) => invocations::get_output(vm, target),
        Call::IsCompleted(handle) => handles::is_completed(vm, handle),
        Call::Take(handle) => handles::take(vm, handle),
        Call::Await(future) => awaits::await_future(vm, future),
        Call::Output { value, options } => outside::output(vm, value, options),
        Call::End => awaits::end(vm),
    }
}

/// Carries a handler's call out.
///
/// Where the machine has failed before, that is what it comes to again; and where it is closed, that it is.
pub fn carry_out(vm: &mut CoreVM, call: Call) -> CallOutcome
    ensures driven { CarriesOut call vm.old.state result vm.new.state }
    ensures failed { StaysFailed (kept_error vm.old.state.phase) vm.old.state result vm.new.state }
    ensures closed { StaysClosed vm.old.state.phase vm.old.state result vm.new.state }
{
    match vm.is_ready_to_execute() {
        Ok(_) => carry_out_by_kind(vm, call),
        Err(error) => {
            drop(call);
            CallOutcome::Failed(error)
        }
    }
}
