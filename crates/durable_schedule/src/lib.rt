//! A whole schedule over a store: what it answers and leaves, whatever its events and the cuts of the bytes are. And all that a program
//! names that has such a schedule, or a scheduler of its own.
#![tactic(auto)]

ghost use Rattle.std.specs.Prelude.{◌≡◌, ◌<◌, ◌≤◌, ◌+◌, List, [], ◌∷◌, ◌++◌, length, IfOk, IfErr, vec_len, vec_capacity};
ghost use Rattle.std.specs.List.{AllByRecursion};
ghost use Rattle.sqlite.specs.Held.{state};
ghost use Rattle.sqlite.specs.State.{HasCleanDisk};
ghost use Rattle.store_calls.specs.AbstractStore.{Standing};
ghost use Rattle.journal_store.specs.StoreStanding.{Endures, IsStanding, Outlasts};
ghost use Rattle.schedule_laws.specs.Schedules.{AppliesAll, FitsEvent, Scheduled};
ghost use Rattle.scheduler.specs.SchedulerCalls.{IsScheduled};
ghost use Rattle.durable_schedule.specs.Causes.{TellsCauses};
ghost use Rattle.durable_schedule.specs.Runs.{EnduresUnwritten, LastsBehind, Leaves, LeavesFirst, at_first};

mod files;
mod front;
pub mod laws;
pub mod options;
pub mod values;

pub use bytes::{ByteStr, Bytes};
pub use files::{
    File, FileNotTaken, FileStore, FoundFiles, MemoryFile, NotTaken, Reason, close_file,
    leave_file, let_go, open, open_file, open_in_memory, reason_of,
};
pub use front::{run_new_schedule, run_reopened_schedule};
pub use journal_store::{Closing, InvocationRow, OpenRequest, Progress, Store};
pub use laws::{forgotten_stores_hold, reopened_stores_hold};
pub use schedule_laws::{
    entries_keep_places, forgetting_keeps, frames_are_taken, inputs_are_handed_out,
    invocations_stand_alone, records_of_runs, replies_alike, schedules_keep, schedules_leave,
    settled_once_record_the_same,
};
pub use scheduler::{
    Answer, AttachInvocationTarget, AwaitedFuture, Call, Cause, Effects, EntryKind, Error, Event,
    EventRefusal, Failure, Handler, Header, HeldAttempt, Host, Input, LastError, Moment,
    NewInvocation, NonEmptyValue, NotificationHandle, NotificationResult, Outcome, PayloadOptions,
    RecordedEntry, Refusal, Reply, RetryPolicy, RunExitResult, RunOutcome, Scheduler, Sequence,
    SignalKey, StateMode, StateRow, Target, TerminalFailure, Turn, UnresolvedFuture, VMOptions,
    Value, Waits, attempts_are_let_go,
};
pub use sqlite::Alter;
use std::alloc::Global;
pub use straight_line::{
    Awakeable, Called, Calls, Combinator, DurableFuture, IdAsked, KeysRead, Peeked, StateRead,
    Stop, Straight, StraightLine, Timer, Told, future_over,
};
pub use vm_attempt_laws::{attempts_follow_runs, bodies_are_asked};

/// Puts a reply behind the others, for which there is room.
fn put(replies: &mut Vec<Reply>, reply: Reply)
    requires { vec_len replies.old < vec_capacity replies.old }
    ensures items { replies.new.items ≡ replies.old.items ++ reply ∷ [] }
    ensures len { vec_len replies.new ≡ vec_len replies.old + 1 }
    ensures capacity { vec_capacity replies.old ≤ vec_capacity replies.new }
{
    let _ = replies.push(reply);
}

/// Memory was refused for the replies, and nothing was applied.
#[derive(Drop)]
pub struct NoRoom<S: Alter> {
    /// As it was handed in.
    pub store: Store<S>,
}

/// Applies events in order, and answers the scheduler and the replies. Room for all replies is made first: where memory is
/// refused for that (S20), nothing is applied and the store comes back.
pub fn run_schedule<H: Handler + Drop, S: Alter + Drop>(
    alloc: Global,
    store: Store<S>,
    options: VMOptions,
    events: Vec<Event<H>>,
) -> Result<(Scheduler<H, S>, Vec<Reply>), NoRoom<S>>
    // What each event answers and leaves: whatever the store stood for, unless the disk failed, applying the events in order, with these
    // replies, leads to what the scheduler and its store stand for now. What `Leaves` tells is said of the accepted events of that, of one
    // list all of it. Those from before stay behind them (`grows`). An invocation whose begins all bring one function stands in the run of
    // that function, if it did before (`in_run`): the headline holds of it, of the suspensions and the ends of each of its attempts; waking
    // is never late, and from version 7 on exact; and none of its frames was refused for a cause that lies in the frame. Of each invocation,
    // whatever its begins bring, at each moment the same stands, and its own events are refused alike, as if only these and the ticks had
    // come since the schedule or it was begun (`isolated`). Of each attempt, at each moment what it was handed is a beginning of its start
    // frame, the journal and each later arrival (`fed`). The frames that a move takes are the first whole ones of the bytes that it moves, behind the torn
    // one of the move before (`taken`). And what each reply to a turn says is what the one uninterrupted run does at that
    // turn, over the arrivals that have come whole to its attempt by then, whether that attempt is the live one, was stopped, or was overtaken (`turns`).
    // All of this list lasts: whatever a crash leaves from then on, up to the next call, the tables keep it. That is so unless memory or a
    // statement was refused in the last event that may have written anything; where none may, what was handed in has to last.
    ensures applies { IfOk result (λ done. HasCleanDisk (state S.Store done.0.store.connection) → (s : Standing) → IsStanding S.Store s store →
        (new : Scheduled H) × IsScheduled S.Store new done.0 × AppliesAll H.next_call options events.items done.1.items (at_first s) new
        × Leaves H.next_call options events.items done.1.items (at_first s) new
        × (LastsBehind (Outlasts s.events (state S.Store store.connection)) events.items done.1.items → Outlasts new.standing.events (state S.Store done.0.store.connection))) }
    ensures count { IfOk result (λ done. length done.1.items ≡ length events.items) }
    ensures options { IfOk result (λ done. done.0.options ≡ options) }
    // What each event brings is within its types, which `schedules_keep` asks of each.
    ensures fits { IfOk result (λ done. AllByRecursion FitsEvent events.items) }
    // Where the database refused a statement, the reply tells its own cause, as `Scheduler::apply` does of each event.
    ensures causes { IfOk result (λ done. TellsCauses S.Store H.next_call options events.items done.1.items store done.0) }
    // What a crash anywhere in it leaves is what it could leave before, or what the first of the events leave, of which the same is told: each
    // with its reply, but the last of them may have been answered otherwise than it was in the end.
    ensures crash { IfOk result (λ done. Endures S.Store (LeavesFirst H.next_call options events.items done.1.items) store done.0.store) }
    // No event that was answered as written is lost by that: what could be left before is left only where none was.
    ensures written { IfOk result (λ done. EnduresUnwritten S.Store events.items done.1.items (LeavesFirst H.next_call options events.items done.1.items) store done.0.store) }
    ensures err { IfErr result (λ refused. refused.store ≡ store) }
{
    let Ok(mut replies) = Vec::with_capacity(alloc, events.len()) else {
        return Err(NoRoom { store });
    };
    schedules_keep::<H>();
    schedules_leave::<H>();
    frames_are_taken::<H>();
    records_of_runs();
    invocations_stand_alone();
    let mut scheduler = Scheduler::new(alloc, store, options);
    for event in events {
        put(&mut replies, scheduler.apply(event));
    }
    Ok((scheduler, replies))
}
