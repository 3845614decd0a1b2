// A run is called.
ghost use Rattle.journal_model.specs.declared.call.Call.{Call};
ghost use Rattle.vm_outcomes.specs.CallOutcomes.{CarriesOut};

use crate::{CoreVM, VM};
use bytes::ByteStr;
use journal_model::Answer;
use vm_outcomes::CallOutcome;

/// Calls a run.
pub(crate) fn run(vm: &mut CoreVM, name: ByteStr) -> CallOutcome
    ensures { CarriesOut (Call.Run name) vm.old.state result vm.new.state }
{
    match vm.sys_run(name) {
        Ok(made) => CallOutcome::Answered(Answer::Handle(made.handle)),
        Err(error) => CallOutcome::Failed(error),
    }
}
