// Calls that tell something to the outside, or wait for a moment.
ghost use Rattle.journal_model.specs.declared.call.Call.{Call};
ghost use Rattle.vm_outcomes.specs.CallOutcomes.{CarriesOut};

use crate::{CoreVM, VM};
use bytes::ByteStr;
use journal_model::{Moment, NonEmptyValue, PayloadOptions};
use vm_outcomes::{CallOutcome, done, handled};

/// Sleeps until a moment.
pub(crate) fn sleep(
    vm: &mut CoreVM,
    name: ByteStr,
    wake_up: Moment,
    now: Option<Moment>,
) -> CallOutcome
    ensures { CarriesOut (Call.Sleep name wake_up now) vm.old.state result vm.new.state }
{
    handled(vm.sys_sleep(name, wake_up, now))
}

/// Completes an awakeable.
pub(crate) fn complete_awakeable(
    vm: &mut CoreVM,
    id: ByteStr,
    value: NonEmptyValue,
    options: PayloadOptions,
) -> CallOutcome
    ensures { CarriesOut (Call.CompleteAwakeable id value options) vm.old.state result vm.new.state }
{
    done(vm.sys_complete_awakeable(id, value, options))
}

/// Sends a signal.
pub(crate) fn complete_signal(
    vm: &mut CoreVM,
    target_id: ByteStr,
    name: ByteStr,
    value: NonEmptyValue,
) -> CallOutcome
    ensures { CarriesOut (Call.CompleteSignal target_id name value) vm.old.state result vm.new.state }
{
    done(vm.sys_complete_signal(target_id, name, value))
}

/// Cancels another invocation.
pub(crate) fn cancel(vm: &mut CoreVM, target_id: ByteStr) -> CallOutcome
    ensures { CarriesOut (Call.Cancel target_id) vm.old.state result vm.new.state }
{
    done(vm.sys_cancel_invocation(target_id))
}

/// Puts out the result.
pub(crate) fn output(vm: &mut CoreVM, value: NonEmptyValue, options: PayloadOptions) -> CallOutcome
    ensures { CarriesOut (Call.Output value options) vm.old.state result vm.new.state }
{
    done(vm.sys_write_output(value, options))
}
