// An await that stays asleep although the journal goes on behind it.
ghost use Rattle.std.specs.Prelude.{◌≡◌, IfOk};
ghost use Rattle.vm_awaits.specs.Views.{slots_of};
ghost use Rattle.vm_waiting.specs.WaitsFor.{ids_over};
ghost use Rattle.vm_progress.specs.UncompletedAwaits.{started_id, lists_over, NamesIn, TellsAwaited, TellsUncompleted, IsUncompleted};

use crate::lists::{ids_in, known_ids, lists_of};
use crate::unfinished::last_command;
use protocol_errors::{Error, UncompletedDoProgressDuringReplay};
use protocol_records::{StartMessage, SuspensionMessageV6};
use std::alloc::{AllocError, Global};
use vm_awaits::AsyncResultsState;
use vm_machine::{MachineState, about_nothing};
use vm_runs::RunState;
use vm_waiting::WaitsFor;

// The error over the ids in three lists.
fn naming(
    alloc: Global,
    start: &Option<StartMessage>,
    runs: &RunState,
    lists: &SuspensionMessageV6,
) -> Result<UncompletedDoProgressDuringReplay, AllocError>
    ensures { IfOk result (NamesIn (started_id start.now) runs.now.table lists.now) }
{
    let ids = ids_in(alloc, lists)?;
    let known = known_ids(alloc, start, runs, lists.waiting_signals.as_slice())?;
    Ok(UncompletedDoProgressDuringReplay::new(ids, known))
}

// The error over the ids that are waited for.
fn naming_waits(
    alloc: Global,
    start: &Option<StartMessage>,
    results: &AsyncResultsState,
    runs: &RunState,
    waits: &WaitsFor,
) -> Result<UncompletedDoProgressDuringReplay, AllocError>
    ensures { IfOk result (NamesIn (started_id start.now) runs.now.table (lists_over (ids_over (slots_of results.now) waits.now))) }
{
    let lists = lists_of(alloc, results, waits)?;
    let error = naming(alloc, start, runs, &lists);
    drop(lists);
    error
}

// What is told of the ids that are waited for, about no command.
fn told_of_ids(
    alloc: Global,
    start: &Option<StartMessage>,
    results: &AsyncResultsState,
    runs: &RunState,
    waits: &WaitsFor,
) -> Result<Error, AllocError>
    ensures { IfOk result (TellsAwaited (started_id start.now) runs.now.table (ids_over (slots_of results.now) waits.now)) }
{
    let error = naming_waits(alloc, start, results, runs, waits)?;
    let told = about_nothing(alloc, &error);
    drop(error);
    told
}

// What a machine fails with whose await stays asleep: it is about the last of the runs that are waited for.
fn uncompleted_cause(
    alloc: Global,
    start: &Option<StartMessage>,
    results: &AsyncResultsState,
    runs: &RunState,
    waits: &WaitsFor,
) -> Result<Error, AllocError>
    ensures { IfOk result (TellsUncompleted (started_id start.now) (slots_of results.now) runs.now waits.now) }
{
    let error = told_of_ids(alloc, start, results, runs, waits)?;
    match last_command(runs, waits) {
        Ok(Some(command)) => Ok(error.with_related_command_metadata(command)),
        Ok(None) => Ok(error),
        Err(refused) => {
            drop(error);
            Err(refused)
        }
    }
}

/// Fails with the ids that an await waits for which were not recorded before the commands behind it.
pub(crate) fn fail_uncompleted(vm: &mut MachineState, waits: WaitsFor) -> Error
    ensures { IsUncompleted waits vm.old result vm.new }
{
    let cause = uncompleted_cause(vm.alloc, &vm.start, &vm.active.results, &vm.runs, &waits);
    drop(waits);
    vm.fail(cause)
}
