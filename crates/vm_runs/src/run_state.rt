// The runs of one attempt.
ghost use Rattle.std.specs.Prelude.{◌≡◌, ◌⊎◌, true, false, None, is_some, option_map, IfSome, OnOk, OnErr};
ghost use Rattle.std.specs.List.{list_any};
ghost use Rattle.std.specs.Option.{option_copied};
ghost use Rattle.journal_model.specs.Future.{tree_of};
ghost use Rattle.attempt_model.specs.Machine.{Machine};
ghost use Rattle.body_laws.specs.Bodies.{Body, Executor, body_awaited, executes_or_awaits, executor_over, has_handle, is_executing};
ghost use Rattle.body_laws.specs.BodySimulation.{Among};
ghost use Rattle.vm_runs.specs.Runs.{acknowledged, after_proposal, bodies_in, body_of, run_handed_out, no_runs, outcome_at, run_at, with_run};
ghost use Rattle.vm_runs.specs.KeptBodies.{Acknowledges, HandsOut, IsNew, KeepsBodies, ProposesOutcome, with_body};

use crate::least::least_awaited;
use crate::run::Run;
use crate::table::{completion_of, keep_outcome, put, run_of, start, take_run};
use bytes::ByteStr;
use journal_model::{NonEmptyValue, NotificationHandle, UnresolvedFuture};
use std::alloc::{AllocError, Global};
use std::collections::BTreeMap;
use std::marker::Model;

/// The runs of one attempt: which are to be executed, which are being executed, and which outcomes wait for their acknowledgement.
///
/// A run is kept from its call until its outcome is proposed. A look takes a time that grows with the logarithm of how many there are.
#[derive(Debug, Drop)]
pub struct RunState {
    table: BTreeMap<u32, Run>,
    /// How many of them are being executed.
    executing: usize,
    cached: BTreeMap<u32, NonEmptyValue>,
}

impl Model for RunState {
    ghost use Rattle.std.specs.Prelude.{◌≡◌};
    ghost use Rattle.std.specs.Ordering.{nat_cmp};
    ghost use Rattle.std.specs.BTreeMap.{IsOrdered};
    ghost use Rattle.vm_runs.specs.Runs.{Runs, count_executing};

    ghost Value = { Runs };

    ghost view = { λ state. record { table = state.table.entries; cached = state.cached.entries } };

    ghost invariant = { λ state. IsOrdered nat_cmp state.table × (state.executing ≡ count_executing state.table.entries) };
}

impl RunState {
    /// No run was called yet.
    pub fn new(alloc: Global) -> RunState
        ensures runs { result ≡ no_runs }
        ensures bodies { (m : Machine) → KeepsBodies result (executor_over m) }
    {
        RunState {
            table: BTreeMap::new(alloc),
            executing: 0,
            cached: BTreeMap::new(alloc),
        }
    }

    /// A run was called, whose outcome has not come: its body is to be executed. Only a new handle needs memory.
    pub fn insert_run_to_execute(
        &mut self,
        handle: NotificationHandle,
        completion: u32,
        command_index: u32,
        command_name: ByteStr,
    ) -> Result<(), AllocError>
        ensures ok { OnOk result (self.new ≡ with_run handle (record { completion = completion; command_index = command_index; command_name = command_name; is_executing = false }) self.old) }
        ensures bodies { OnOk result ((e : Executor) → KeepsBodies self.old e → IsNew handle e → KeepsBodies self.new (with_body e (record { handle = handle; completion = completion }))) }
        ensures err { OnErr result (self.new ≡ self.old) }
        ensures memory { OnErr result (run_at self.old.table handle ≡ None) }
    {
        let run = Run {
            completion,
            command_index,
            command_name,
            is_executing: false,
        };
        let replaced = put(&mut self.table, handle, run)?;
        self.executing -= replaced;
        Ok(())
    }

    /// Hands out the body of what is awaited that is to be executed first: that of the least handle.
    pub fn try_execute_run(&mut self, awaited: &UnresolvedFuture) -> Option<NotificationHandle>
        ensures least { result ≡ option_map (λ body. body.handle) (body_awaited (tree_of awaited.now) (bodies_in false self.old.table)) }
        ensures runs { self.new ≡ run_handed_out result self.old }
        ensures bodies { (e : Executor) → KeepsBodies self.old e → HandsOut (executes_or_awaits (tree_of awaited.now) e (body_awaited (tree_of awaited.now) e.left)) result self.new }
    {
        let Some(handle) = least_awaited(false, &self.table, awaited) else {
            return None;
        };
        let many = self.table.len();
        prove!(self.executing < many);
        start(&mut self.table, handle);
        self.executing += 1;
        Some(NotificationHandle::new(handle))
    }

    /// The run of a handle, where its outcome was not proposed.
    pub fn get_run_info(&self, handle: NotificationHandle) -> Option<&Run>
        ensures run { option_copied result ≡ run_at self.now.table handle }
        ensures body { IfSome result (λ run. (e : Executor) → KeepsBodies self.now e → Among (body_of handle run.now) e.left ⊎ Among (body_of handle run.now) e.executing) }
    {
        run_of(&self.table, handle)
    }

    /// The runs whose outcomes were not proposed, by their handles.
    pub fn unproposed(&self) -> &BTreeMap<u32, Run>
        ensures { result.now.entries ≡ self.now.table }
    {
        &self.table
    }

    /// Whether a body of what is awaited is being executed.
    pub fn any_executing_in_this_set(&self, awaited: &UnresolvedFuture) -> bool
        ensures any { result ≡ list_any (λ body. has_handle body.handle (tree_of awaited.now)) (bodies_in true self.now.table) }
        ensures bodies { (e : Executor) → KeepsBodies self.now e → result ≡ is_executing (tree_of awaited.now) e }
    {
        least_awaited(true, &self.table, awaited).is_some()
    }

    /// Whether any body is being executed.
    pub fn any_executing(&self) -> bool
        ensures any { result ≡ list_any (λ body. true) (bodies_in true self.now.table) }
        ensures bodies { (e : Executor) → KeepsBodies self.now e → result ≡ list_any (λ body. true) e.executing }
    {
        self.executing > 0
    }

    /// The outcome of a run was proposed: its body is no longer to be executed. A copy of it is kept until it is acknowledged, where
    /// one is given, and only that needs memory.
    pub fn notify_execution_completed(
        &mut self,
        executed: NotificationHandle,
        outcome: Option<NonEmptyValue>,
    ) -> Result<(), AllocError>
        ensures ok { OnOk result (self.new ≡ after_proposal executed outcome self.old) }
        ensures bodies { OnOk result (ProposesOutcome executed outcome (run_at self.old.table executed) self.old self.new) }
        ensures err { OnErr result (self.new ≡ self.old) }
        ensures memory { OnErr result (is_some outcome ≡ true) }
    {
        let Some(completion) = completion_of(&self.table, executed) else {
            drop(outcome);
            return Ok(());
        };
        keep_outcome(&mut self.cached, completion, outcome)?;
        self.executing -= take_run(&mut self.table, executed);
        Ok(())
    }

    /// An outcome is acknowledged. It is none that was kept where there is none.
    pub fn acknowledge(&mut self, completion: u32) -> Option<NonEmptyValue>
        ensures outcome { result ≡ outcome_at self.old.cached completion }
        ensures runs { self.new ≡ acknowledged completion self.old }
        ensures bodies { Acknowledges completion result self.old self.new }
    {
        self.cached.remove(&completion)
    }
}
