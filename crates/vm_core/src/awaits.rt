// An await, and the end.
ghost use Rattle.journal_model.specs.declared.call.Call.{Call};
ghost use Rattle.vm_outcomes.specs.CallOutcomes.{CarriesOut};

use crate::{CoreVM, VM};
use journal_model::AwaitedFuture;
use vm_outcomes::{CallOutcome, awaited, ended};

/// Waits for a future.
pub(crate) fn await_future(vm: &mut CoreVM, future: AwaitedFuture) -> CallOutcome
    ensures { CarriesOut (Call.Await future) vm.old.state result vm.new.state }
{
    awaited(vm.do_await(future.into_future()))
}

/// Ends the invocation.
pub(crate) fn end(vm: &mut CoreVM) -> CallOutcome
    ensures { CarriesOut Call.End vm.old.state result vm.new.state }
{
    ended(vm.sys_end())
}
