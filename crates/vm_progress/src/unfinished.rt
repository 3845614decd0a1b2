// The last of the runs that an await waits for.
ghost use Rattle.std.specs.Prelude.{◌≡◌, is_some, IfOk};
ghost use Rattle.journal_model.specs.Future.{tree_of};
ghost use Rattle.vm_runs.specs.Runs.{run_at};
ghost use Rattle.vm_progress.specs.UncompletedAwaits.{greater, IsGreatest, is_unfinished, IsLast, IsLastRun};

use journal_model::{NotificationHandle, UnresolvedFuture};
use protocol_errors::CommandMetadata;
use std::alloc::AllocError;
use vm_flat_trees::opening::{Opened, open};
use vm_proposals::run_told;
use vm_runs::RunState;
use vm_waiting::WaitsFor;

fn greater(one: Option<u32>, other: Option<u32>) -> Option<u32>
    ensures { result ≡ greater one other }
{
    match (one, other) {
        (Some(one), Some(other)) => Some(one.max(other)),
        (Some(one), None) => Some(one),
        (None, other) => other,
    }
}

// Whether a handle is that of a run whose outcome was not proposed.
fn is_unfinished(runs: &RunState, handle: NotificationHandle) -> bool
    ensures { result ≡ is_some (run_at runs.now.table handle) }
{
    runs.get_run_info(handle).is_some()
}

// The greatest such handle of a future.
fn last_unfinished(runs: &RunState, awaited: &UnresolvedFuture) -> Option<u32>
    ensures { IsGreatest (is_unfinished runs.now.table (tree_of awaited.now)) result }
{
    match open(awaited) {
        Opened::Leaf(handle) => {
            if is_unfinished(runs, handle) {
                Some(handle.number())
            } else {
                None
            }
        }
        Opened::Node(_, children) => {
            let mut last = None;
            for child in children {
                last = greater(last, last_unfinished(runs, child));
            }
            last
        }
    }
}

fn last_of(runs: &RunState, waits: &WaitsFor) -> Option<u32>
    ensures { IsLast runs.now.table waits.now result }
{
    match waits {
        WaitsFor::Future(left) => last_unfinished(runs, left),
        WaitsFor::Child(_) => None,
    }
}

/// The command of the run of the greatest handle that is waited for, if its outcome was not proposed.
pub(crate) fn last_command(
    runs: &RunState,
    waits: &WaitsFor,
) -> Result<Option<CommandMetadata>, AllocError>
    ensures { IfOk result (IsLastRun runs.now.table waits.now) }
{
    let Some(handle) = last_of(runs, waits) else {
        return Ok(None);
    };
    match runs.get_run_info(NotificationHandle::new(handle)) {
        Some(run) => Ok(Some(run_told(run)?)),
        None => Ok(None),
    }
}
