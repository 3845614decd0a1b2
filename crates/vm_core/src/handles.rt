// Calls that make handles, take what they stand for, and look at it.
ghost use Rattle.journal_model.specs.declared.call.Call.{Call};
ghost use Rattle.vm_outcomes.specs.CallOutcomes.{CarriesOut};

use crate::{CoreVM, VM};
use bytes::ByteStr;
use journal_model::{Answer, NotificationHandle};
use vm_outcomes::{CallOutcome, handled};

/// Makes an awakeable.
pub(crate) fn awakeable(vm: &mut CoreVM) -> CallOutcome
    ensures { CarriesOut Call.Awakeable vm.old.state result vm.new.state }
{
    match vm.sys_awakeable() {
        Ok(made) => CallOutcome::Answered(Answer::Awakeable {
            id: made.id,
            handle: made.handle,
        }),
        Err(error) => CallOutcome::Failed(error),
    }
}

/// Makes a handle of a signal.
pub(crate) fn signal(vm: &mut CoreVM, name: ByteStr) -> CallOutcome
    ensures { CarriesOut (Call.Signal name) vm.old.state result vm.new.state }
{
    handled(vm.create_signal_handle(name))
}

/// Takes what has come.
pub(crate) fn take(vm: &mut CoreVM, handle: NotificationHandle) -> CallOutcome
    ensures { CarriesOut (Call.Take handle) vm.old.state result vm.new.state }
{
    match vm.take_notification(handle) {
        Ok(taken) => CallOutcome::Answered(Answer::Taken(taken)),
        Err(error) => CallOutcome::Failed(error),
    }
}

/// Looks whether anything has.
pub(crate) fn is_completed(vm: &CoreVM, handle: NotificationHandle) -> CallOutcome
    ensures { CarriesOut (Call.IsCompleted handle) vm.now.state result vm.now.state }
{
    CallOutcome::Answered(Answer::Completed(vm.is_completed(handle)))
}
