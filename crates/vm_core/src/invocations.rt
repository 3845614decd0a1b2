// Calls that begin other invocations, and ask them for their answers.
ghost use Rattle.journal_model.specs.declared.call.Call.{Call};
ghost use Rattle.vm_outcomes.specs.CallOutcomes.{CarriesOut};

use crate::{CoreVM, VM};
use bytes::{ByteStr, Bytes};
use journal_model::{Answer, AttachInvocationTarget, Moment, PayloadOptions, Target};
use vm_outcomes::{CallOutcome, handled};

/// Calls a handler of a service.
pub(crate) fn call(
    vm: &mut CoreVM,
    target: Target,
    input: Bytes,
    name: Option<ByteStr>,
    options: PayloadOptions,
) -> CallOutcome
    ensures { CarriesOut (Call.Call target input name options) vm.old.state result vm.new.state }
{
    match vm.sys_call(target, input, name, options) {
        Ok(made) => CallOutcome::Answered(Answer::Handles {
            invocation_id_handle: made.invocation_id_notification_handle,
            result_handle: made.call_notification_handle,
        }),
        Err(error) => CallOutcome::Failed(error),
    }
}

/// Calls one without waiting for its answer.
pub(crate) fn send(
    vm: &mut CoreVM,
    target: Target,
    input: Bytes,
    execution_time: Option<Moment>,
    name: Option<ByteStr>,
    options: PayloadOptions,
) -> CallOutcome
    ensures { CarriesOut (Call.Send target input execution_time name options) vm.old.state result vm.new.state }
{
    match vm.sys_send(target, input, execution_time, name, options) {
        Ok(made) => CallOutcome::Answered(Answer::Handle(made.invocation_id_notification_handle)),
        Err(error) => CallOutcome::Failed(error),
    }
}

/// Waits for the result of another invocation.
pub(crate) fn attach(vm: &mut CoreVM, target: AttachInvocationTarget) -> CallOutcome
    ensures { CarriesOut (Call.Attach target) vm.old.state result vm.new.state }
{
    handled(vm.sys_attach_invocation(target))
}

/// Asks whether it has one.
pub(crate) fn get_output(vm: &mut CoreVM, target: AttachInvocationTarget) -> CallOutcome
    ensures { CarriesOut (Call.GetOutput target) vm.old.state result vm.new.state }
{
    handled(vm.sys_get_invocation_output(target))
}
