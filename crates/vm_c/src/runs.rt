// Runs.
ghost use Rattle.std.specs.Prelude.{IsUtf8, IsTrue};
ghost use Rattle.vm_proposals.specs.RunCallEffects.{CallsRun};
ghost use Rattle.vm_proposals.specs.ProposalEffects.{ProposesRun};
ghost use Rattle.vm_refusals.specs.declared.retries.RetryPolicy.{RetryPolicy};
ghost use Rattle.vm_refusals.specs.declared.runs.RunExitResult.{RunExitResult};
ghost use Rattle.vm_c_machine.specs.Calls.{DoesCall, ProposesRetry, Given};
ghost use Rattle.vm_c_values.specs.Options.{is_set};
ghost use Rattle.vm_c_values.specs.Records.{failure_in};
ghost use Rattle.vm_c.specs.Calls.{Over};
ghost use Rattle.vm_c_values.specs.Arguments.{AnyBytes, IsFailure, is_policy};

use crate::handle::Handle;
use crate::status::NO_MACHINE;
use std::alloc::Global;
use vm_c_values::Policy;

/// Calls a run: the handle's notification brings its outcome. Whether that is among what was recorded: then the body is not executed.
#[unsafe(no_mangle)]
pub extern "C" fn hengomaru_vm_sys_run(
    alloc: Global,
    handle: &mut Handle,
    name: &[u8],
    replayed: &mut u32,
    notification: &mut u32,
) -> u32
    ensures { Over (Given (IsUtf8 name.now) (DoesCall (CallsRun name.now) (record { replayed = is_set replayed.new; handle = notification.new }))) handle.old.value result handle.new.value }
{
    match handle.take(alloc) {
        Some(mut held) => {
            let done = held.machine.sys_run(name, replayed, notification);
            handle.put_back(held, done)
        }
        None => NO_MACHINE,
    }
}

/// The body of a run has ended with this value.
#[unsafe(no_mangle)]
pub extern "C" fn hengomaru_vm_propose_run_success(
    alloc: Global,
    handle: &mut Handle,
    notification: u32,
    value: &[u8],
) -> u32
    ensures { Over (Given AnyBytes (DoesCall (ProposesRun notification (RunExitResult.Success value.now) RetryPolicy.Infinite) tt)) handle.old.value result handle.new.value }
{
    match handle.take(alloc) {
        Some(mut held) => {
            let done = held.machine.propose_run_success(notification, value);
            handle.put_back(held, done)
        }
        None => NO_MACHINE,
    }
}

/// The body of a run has ended with a failure that is its outcome.
#[unsafe(no_mangle)]
pub extern "C" fn hengomaru_vm_propose_run_failure(
    alloc: Global,
    handle: &mut Handle,
    notification: u32,
    failure: &[u8],
) -> u32
    ensures { Over (Given (IsFailure failure.now) (DoesCall (ProposesRun notification (RunExitResult.TerminalFailure (failure_in failure.now)) RetryPolicy.Infinite) tt)) handle.old.value result handle.new.value }
{
    match handle.take(alloc) {
        Some(mut held) => {
            let done = held.machine.propose_run_failure(notification, failure);
            handle.put_back(held, done)
        }
        None => NO_MACHINE,
    }
}

/// An attempt at the body of a run has failed, after so long, with an error of which the policy says whether the body is executed again.
#[unsafe(no_mangle)]
pub extern "C" fn hengomaru_vm_propose_run_retryable(
    alloc: Global,
    handle: &mut Handle,
    notification: u32,
    attempt_millis: u64,
    code: u16,
    message: &[u8],
    policy: &Policy,
) -> u32
    ensures { Over (Given (IsTrue (is_policy policy.now) × IsUtf8 message.now) (ProposesRetry notification attempt_millis code message.now policy.now)) handle.old.value result handle.new.value }
{
    match handle.take(alloc) {
        Some(mut held) => {
            let done = held
                .machine
                .propose_run_retryable(notification, attempt_millis, code, message, policy);
            handle.put_back(held, done)
        }
        None => NO_MACHINE,
    }
}
