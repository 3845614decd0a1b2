// Calls of promises.
ghost use Rattle.journal_model.specs.declared.call.Call.{Call};
ghost use Rattle.vm_outcomes.specs.CallOutcomes.{CarriesOut};

use crate::{CoreVM, VM};
use bytes::ByteStr;
use journal_model::{NonEmptyValue, PayloadOptions};
use vm_outcomes::{CallOutcome, handled};

/// Waits for a promise.
pub(crate) fn get_promise(vm: &mut CoreVM, key: ByteStr) -> CallOutcome
    ensures { CarriesOut (Call.GetPromise key) vm.old.state result vm.new.state }
{
    handled(vm.sys_get_promise(key))
}

/// Looks at a promise.
pub(crate) fn peek_promise(vm: &mut CoreVM, key: ByteStr) -> CallOutcome
    ensures { CarriesOut (Call.PeekPromise key) vm.old.state result vm.new.state }
{
    handled(vm.sys_peek_promise(key))
}

/// Completes a promise.
pub(crate) fn complete_promise(
    vm: &mut CoreVM,
    key: ByteStr,
    value: NonEmptyValue,
    options: PayloadOptions,
) -> CallOutcome
    ensures { CarriesOut (Call.CompletePromise key value options) vm.old.state result vm.new.state }
{
    handled(vm.sys_complete_promise(key, value, options))
}
