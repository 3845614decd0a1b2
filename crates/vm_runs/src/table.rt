// Runs by their handles.
ghost use Rattle.std.specs.Prelude.{◌≡◌, true, None, is_some, option_map, IfOk, OnOk, OnErr};
ghost use Rattle.std.specs.Option.{option_copied};
ghost use Rattle.std.specs.Ordering.{nat_cmp};
ghost use Rattle.std.specs.Map.{remove_entry};
ghost use Rattle.std.specs.BTreeMap.{IsOrdered, insert_entry, is_at};
ghost use Rattle.vm_runs.specs.Runs.{has_run, is_so, run_at, started, weight, weight_at, with_cached};

use crate::run::Run;
use journal_model::{NonEmptyValue, NotificationHandle};
use std::alloc::AllocError;
use std::collections::BTreeMap;

fn is_so(executing: bool, run: &Run) -> bool
    ensures { result ≡ is_so executing run.now }
{
    if executing {
        run.is_executing
    } else {
        !run.is_executing
    }
}

/// Whether the run of a handle is being executed, or is to be.
pub fn has_run(executing: bool, table: &BTreeMap<u32, Run>, handle: u32) -> bool
    ensures { result ≡ has_run executing table.now.entries handle }
{
    match table.get(&handle) {
        Some(run) => is_so(executing, run),
        None => false,
    }
}

fn weight(run: &Run) -> usize
    ensures { result ≡ weight run.now }
{
    if run.is_executing { 1 } else { 0 }
}

/// Puts in the run of a handle, and answers how many were replaced that were being executed.
pub fn put(
    table: &mut BTreeMap<u32, Run>,
    handle: NotificationHandle,
    run: Run,
) -> Result<usize, AllocError>
    ensures entries { OnOk result (table.new.entries ≡ insert_entry nat_cmp table.old.entries handle run) }
    ensures replaced { IfOk result (λ replaced. replaced ≡ weight_at table.old.entries handle) }
    ensures err { OnErr result (table.new.entries ≡ table.old.entries) }
    ensures absent { OnErr result (run_at table.old.entries handle ≡ None) }
    ensures ordered { IsOrdered nat_cmp table.new }
{
    match table.insert(handle.number(), run)? {
        Some(earlier) => {
            let replaced = weight(&earlier);
            drop(earlier);
            Ok(replaced)
        }
        None => Ok(0),
    }
}

/// The run of a handle is being executed from now on.
pub fn start(table: &mut BTreeMap<u32, Run>, handle: u32)
    ensures entries { table.new.entries ≡ started handle table.old.entries }
    ensures ordered { IsOrdered nat_cmp table.new }
{
    if let Some(run) = table.get_mut(&handle) {
        run.is_executing = true;
    }
}

/// The run of a handle.
pub fn run_of(table: &BTreeMap<u32, Run>, handle: NotificationHandle) -> Option<&Run>
    ensures { option_copied result ≡ run_at table.now.entries handle }
{
    table.get(&handle.number())
}

/// The completion of the run of a handle.
pub fn completion_of(table: &BTreeMap<u32, Run>, handle: NotificationHandle) -> Option<u32>
    ensures { result ≡ option_map (λ run. run.completion) (run_at table.now.entries handle) }
{
    match run_of(table, handle) {
        Some(run) => Some(run.completion),
        None => None,
    }
}

/// Lets go of the run of a handle, and answers how many were let go of that were being executed.
pub fn take_run(table: &mut BTreeMap<u32, Run>, handle: NotificationHandle) -> usize
    ensures entries { table.new.entries ≡ remove_entry (is_at (nat_cmp handle)) table.old.entries }
    ensures taken { result ≡ weight_at table.old.entries handle }
    ensures ordered { IsOrdered nat_cmp table.new }
{
    match table.remove(&handle.number()) {
        Some(run) => {
            let taken = weight(&run);
            drop(run);
            taken
        }
        None => 0,
    }
}

/// Keeps an outcome until it is acknowledged, if there is one.
pub fn keep_outcome(
    cached: &mut BTreeMap<u32, NonEmptyValue>,
    completion: u32,
    outcome: Option<NonEmptyValue>,
) -> Result<(), AllocError>
    ensures ok { OnOk result (cached.new.entries ≡ with_cached completion outcome cached.old.entries) }
    ensures err { OnErr result (cached.new.entries ≡ cached.old.entries) }
    ensures memory { OnErr result (is_some outcome ≡ true) }
{
    if let Some(value) = outcome {
        drop(cached.insert(completion, value)?);
    }
    Ok(())
}
