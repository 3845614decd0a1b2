// The front: a schedule over a store, in terms of the events that it has accepted.
ghost use Rattle.std.specs.Prelude.{◌≡◌, List, [], IfOk, IfErr};
ghost use Rattle.sqlite.specs.Held.{state};
ghost use Rattle.sqlite.specs.State.{HasCleanDisk, Survives};
ghost use Rattle.sqlite_trees.specs.Tree.{Trees};
ghost use Rattle.journal_model.specs.Event.{Event as Accepted};
ghost use Rattle.durable_schedule.specs.Causes.{TellsCauses};
ghost use Rattle.durable_schedule.specs.Front.{KeepsFirst, KeepsWritten, RecordsFaithfully, StandsFor};

use crate::{NoRoom, run_schedule};
use journal_store::Store;
use schedule_laws::invocations_stand_alone;
use scheduler::{Event, Handler, Reply, Scheduler, VMOptions};
use sqlite::Alter;
use std::alloc::Global;

/// Applies events in order to a store that has accepted some before, as `run_schedule` does: one that was opened again, or that a schedule
/// has left. `open_file` of `store_files` tells which events a store stands for that is opened again.
///
/// What `run_new_schedule` says of a new store stands of this one, of all that was accepted before and now: of each invocation that was in
/// the run of its handler before, which is so of one that was not begun yet, and of which `run_new_schedule` and this function leave it so
/// (`holds`); `reopened_stores_hold` says that it is still so where a store is opened again.
pub fn run_reopened_schedule<H: Handler + Drop, S: Alter + Drop>(
    alloc: Global,
    store: Store<S>,
    options: VMOptions,
    events: Vec<Event<H>>,
) -> Result<(Scheduler<H, S>, Vec<Reply>), NoRoom<S>>
    ensures faithful { IfOk result (λ done. (before : List Accepted) → StandsFor S.Store before store → HasCleanDisk (state S.Store done.0.store.connection) → RecordsFaithfully S.Store H.next_call options before events.items done.1.items done.0) }
    ensures crash { IfOk result (λ done. (before : List Accepted) → StandsFor S.Store before store → Survives (state S.Store store.connection) (state S.Store done.0.store.connection) (KeepsFirst H.next_call options before events.items done.1.items)) }
    // What a crash leaves keeps every event that was answered as written: what could be left before is left only where none was.
    ensures written { IfOk result (λ done. (before : List Accepted) → StandsFor S.Store before store → HasCleanDisk (state S.Store done.0.store.connection) → (trees : Trees) → (state S.Store done.0.store.connection).may_leave trees → KeepsWritten H.next_call options before events.items done.1.items (state S.Store store.connection).may_leave trees) }
    // Where the database refused a statement, the reply tells its own cause.
    ensures causes { IfOk result (λ done. TellsCauses S.Store H.next_call options events.items done.1.items store done.0) }
    ensures options { IfOk result (λ done. done.0.options ≡ options) }
    ensures err { IfErr result (λ refused. refused.store ≡ store) }
{
    invocations_stand_alone();
    run_schedule(alloc, store, options, events)
}

/// Applies events in order to a new store, as `run_schedule` does to any. `Store::open` promises of a database without tables that its
/// store is new, and so do `open_in_memory` and `open_file` of `store_files`.
///
/// There is one list of accepted events, and `entries`, `answer`, `failure`, `is_open` and `due` of the scheduler, and of its store, tell of
/// that list. Of each invocation whose begins all bring one function the recorded requests are a prefix of those that one uninterrupted run of
/// this function makes over its recorded arrivals, and all of them where an attempt was suspended or ended, over what it was handed; its end
/// alone closes it, and its answer is the run's; an outcome that is recorded of one of its runs is the one that a turn was given which has
/// executed the body of that run; a move takes the first bytes that its attempt has written and that wait, as many as are asked for or all, and
/// records the whole frames among them in order; and while it is suspended `due` lists it as soon as the run goes on, and from version 7 on only then, where nothing was
/// cancelled and all that it awaits has an id. What came of other invocations since it was made changes none of this. All of it lasts, unless memory or a statement was refused last; and a crash anywhere
/// in it leaves the same of a prefix of the events, in which none is missing that was answered as written.
pub fn run_new_schedule<H: Handler + Drop, S: Alter + Drop>(
    alloc: Global,
    store: Store<S>,
    options: VMOptions,
    events: Vec<Event<H>>,
) -> Result<(Scheduler<H, S>, Vec<Reply>), NoRoom<S>>
    ensures faithful { IfOk result (λ done. StandsFor S.Store [] store → HasCleanDisk (state S.Store done.0.store.connection) → RecordsFaithfully S.Store H.next_call options [] events.items done.1.items done.0) }
    ensures crash { IfOk result (λ done. StandsFor S.Store [] store → Survives (state S.Store store.connection) (state S.Store done.0.store.connection) (KeepsFirst H.next_call options [] events.items done.1.items)) }
    ensures written { IfOk result (λ done. StandsFor S.Store [] store → HasCleanDisk (state S.Store done.0.store.connection) → (trees : Trees) → (state S.Store done.0.store.connection).may_leave trees → KeepsWritten H.next_call options [] events.items done.1.items (state S.Store store.connection).may_leave trees) }
    // Where the database refused a statement, the reply tells its own cause.
    ensures causes { IfOk result (λ done. TellsCauses S.Store H.next_call options events.items done.1.items store done.0) }
    ensures options { IfOk result (λ done. done.0.options ≡ options) }
    ensures err { IfErr result (λ refused. refused.store ≡ store) }
{
    run_reopened_schedule(alloc, store, options, events)
}
