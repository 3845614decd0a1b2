// Events that are recorded: each is made ready, and then written in one transaction.
ghost use Rattle.std.specs.Prelude.{◌≡◌, ◌≢◌, Some, [], ◌<◌, IfOk, OnErr, OnOk, IfErr};
ghost use Rattle.journal_model.specs.Event.{Event};
ghost use Rattle.store_live.specs.Rows.{AreNoted};
ghost use Rattle.store_calls.specs.AbstractStore.{Adds};
ghost use Rattle.store_calls.specs.Calls.{BeginsAttempt, CompletesCall, Invokes};
ghost use Rattle.store_calls.specs.Forgetting.{Forgets, LeavesOthers};
ghost use Rattle.journal_store.specs.Attempts.{BeginsSome, IsNowNoted, IsToldAs, fresh};
ghost use Rattle.journal_store.specs.StoreStanding.{EnduresAlways, KeepsOutputs, Leads, Settles, WaitsAfter, WaitsNow};
ghost use Rattle.journal_store.specs.Words.{state, AreTablesKept};
ghost use Rattle.journal_store.specs.StoreTransaction.{WritesRows};
ghost use Rattle.journal_store.specs.Causes.{TellsWhyUnforgotten, TellsWhyUnwritten, TriesEvent};

use crate::store::Store;
use bytes::ByteStr;
use journal_model::{NewInvocation, NotificationResult};
use protocol_stream::Version;
use sqlite::Alter;
use std::alloc::{AllocError, Global};
use store_arrivals::{PreparedArrival, prepare_result};
use store_calls::BegunAttempt;
use store_invocations::{PreparedAttempt, prepare_begin, prepare_forget, prepare_invoke};
use store_live::{AttemptInput, FrameBuffer, LiveAttempt, LiveAttempts};
use store_refusals::Refusal;
use store_tables::{InvocationRow, StoreTables, Write, commit_all};

/// Writes in one transaction what is to be written, if there is anything.
pub(crate) fn commit<S: Alter>(tables: &mut StoreTables<S>, writes: &[Write]) -> Result<(), Refusal>
    ensures { WritesRows S.Store writes.now tables.old tables.new result }
{
    // It does nothing: its contract says over what tables a write is refused.
    let _settled = tables.is_settled();
    match commit_all(tables, writes) {
        Ok(()) => Ok(()),
        Err(cause) => Err(Refusal::StatementRefused(cause)),
    }
}

/// Writes what was made ready of an event.
fn commit_ready<S: Alter>(tables: &mut StoreTables<S>, writes: Vec<Write>) -> Result<(), Refusal>
    ensures { WritesRows S.Store writes.items tables.old tables.new result }
{
    let done = commit(tables, writes.as_slice());
    drop(writes);
    done
}

/// Writes what was made ready of an event, and then takes it in for the attempts that are live.
pub(crate) fn commit_noted<S: Alter>(
    tables: &mut StoreTables<S>,
    live: &mut LiveAttempts,
    writes: Vec<Write>,
) -> Result<(), Refusal>
    ensures made { WritesRows S.Store writes.items tables.old tables.new result }
    ensures noted { OnOk result (AreNoted writes.items live.old.attempts live.new.attempts) }
    ensures stays { OnErr result (live.new ≡ live.old) }
{
    match commit(tables, writes.as_slice()) {
        Ok(()) => {
            live.note_written(writes);
            Ok(())
        }
        Err(why) => {
            drop(writes);
            Err(why)
        }
    }
}

/// The attempt that is begun: nothing of its input was read, and it wrote nothing.
fn fresh_attempt(
    alloc: Global,
    number: u32,
    version: Version,
    known: u32,
    arrivals: u32,
    row: InvocationRow,
) -> LiveAttempt
    ensures { result ≡ fresh number version known arrivals row }
{
    LiveAttempt {
        number,
        version,
        input: AttemptInput::new(alloc, known, arrivals),
        is_input_closed: false,
        output: FrameBuffer::new(alloc),
        row,
    }
}

/// Takes in an attempt that was begun, and what was written of that. Room was made for it.
fn take_in(live: &mut LiveAttempts, id: ByteStr, attempt: LiveAttempt, writes: Vec<Write>)
    requires { 0 < live.old.room }
    ensures put { IsNowNoted writes.items id (Some attempt) live.old.attempts live.new.attempts }
    ensures waits { WaitsNow id (Some attempt.output) live.old.attempts live.new.attempts }
{
    live.put_begun(id, attempt);
    live.note_written(writes);
}

/// Makes room for one more attempt, and the id by which it is taken in.
fn room_for(live: &mut LiveAttempts, id: &ByteStr) -> Result<ByteStr, AllocError>
    ensures same { IfOk result (λ own. own ≡ id.now) }
    ensures room { OnOk result (0 < live.new.room) }
    ensures kept { live.new.attempts ≡ live.old.attempts }
{
    live.reserve_one()?;
    id.clone()
}

impl<S: Alter + Drop> Store<S> {
    /// Writes an arrival that was made ready. A live attempt reads it from its row, once all before it was handed out: so it is recorded
    /// before a byte of it is handed out.
    pub(crate) fn record_arrival(&mut self, made: PreparedArrival) -> Result<u32, Refusal>
        ensures place { IfOk result (λ place. place ≡ made.place) }
        ensures made { WritesRows S.Store made.writes.items self.old.connection self.new.connection result }
        ensures noted { OnOk result (AreNoted made.writes.items self.old.live.attempts self.new.live.attempts) }
        ensures stays { OnErr result (self.new.live ≡ self.old.live) }
    {
        let PreparedArrival { writes, place } = made;
        match commit_noted(&mut self.tables, &mut self.live, writes) {
            Ok(()) => Ok(place),
            Err(why) => Err(why),
        }
    }

    /// Makes room for the attempt that is begun; then writes what was made ready of the begin, and takes the attempt in.
    fn record_begin(&mut self, id: &ByteStr, made: PreparedAttempt) -> Result<BegunAttempt, Refusal>
        ensures told { IfOk result (IsToldAs made) }
        ensures made { WritesRows S.Store made.writes.items self.old.connection self.new.connection result }
        ensures put { OnOk result (IsNowNoted made.writes.items id.now (Some (fresh made.number made.version made.known made.arrivals made.row)) self.old.live.attempts self.new.live.attempts) }
        ensures waits { WaitsAfter id.now (Some []) result self.old.live.attempts self.new.live.attempts }
        ensures stays { OnErr result (self.new.live.attempts ≡ self.old.live.attempts) }
    {
        let PreparedAttempt {
            writes,
            number,
            version,
            start,
            known,
            arrivals,
            row,
        } = made;
        let Ok(own) = room_for(&mut self.live, id) else {
            drop(writes);
            drop(start);
            drop(row);
            return Err(Refusal::OutOfMemory);
        };
        match commit(&mut self.tables, writes.as_slice()) {
            Ok(()) => {
                let alloc = self.tables.alloc();
                let attempt = fresh_attempt(alloc, number, version, known, arrivals, row);
                take_in(&mut self.live, own, attempt, writes);
                Ok(BegunAttempt {
                    number,
                    version,
                    start,
                })
            }
            Err(why) => {
                drop(writes);
                drop(own);
                drop(start);
                drop(row);
                Err(why)
            }
        }
    }

    /// A new invocation. Its object may have had others, but none of them is open.
    pub fn invoke(&mut self, new: NewInvocation) -> Result<(), Refusal>
        ensures does { Leads S.Store (Invokes new result) self.old self.new }
        ensures live { self.new.live ≡ self.old.live }
        ensures settled { OnOk result (Settles S.Store (Invokes new result) self.old self.new) }
        ensures kept { OnErr result (AreTablesKept (state S.Store self.old.connection) (state S.Store self.new.connection)) }
        ensures cause { IfErr result (TellsWhyUnwritten S.Store self.old self.new (TriesEvent (Event.Invoke new))) }
        ensures crash { EnduresAlways S.Store (Adds (Event.Invoke new)) self.old self.new }
    {
        let prepared = prepare_invoke(&mut self.tables, &new);
        drop(new);
        match prepared {
            Ok(writes) => commit_ready(&mut self.tables, writes),
            Err(why) => Err(why),
        }
    }

    /// Forgets closed invocations, all of them or none, in one transaction: their ids are those of no invocation then, and may be used
    /// again. What their requests have made of their objects' states stays. The first that is open or not known tells why none is forgotten.
    /// Where none is named nothing is done.
    pub fn forget(&mut self, ids: &[ByteStr]) -> Result<(), Refusal>
        ensures does { Leads S.Store (Forgets ids.now result) self.old self.new }
        ensures live { self.new.live ≡ self.old.live }
        ensures settled { ids.now ≢ [] → OnOk result (Settles S.Store (Forgets ids.now result) self.old self.new) }
        ensures kept { OnErr result (AreTablesKept (state S.Store self.old.connection) (state S.Store self.new.connection)) }
        ensures cause { IfErr result (TellsWhyUnforgotten S.Store self.old self.new ids.now) }
        ensures crash { EnduresAlways S.Store (LeavesOthers ids.now) self.old self.new }
    {
        match prepare_forget(&mut self.tables, ids) {
            Ok(writes) => commit_ready(&mut self.tables, writes),
            Err(why) => Err(why),
        }
    }

    /// The result of a request, for its completion. Answers the place that it takes in the journal.
    pub fn result(
        &mut self,
        id: &ByteStr,
        completion: u32,
        brought: NotificationResult,
    ) -> Result<u32, Refusal>
        ensures does { Leads S.Store (CompletesCall id.now completion brought result) self.old self.new }
        ensures waits { KeepsOutputs self.old.live.attempts self.new.live.attempts }
        ensures settled { OnOk result (Settles S.Store (CompletesCall id.now completion brought result) self.old self.new) }
        ensures kept { OnErr result (AreTablesKept (state S.Store self.old.connection) (state S.Store self.new.connection)) }
        ensures cause { IfErr result (TellsWhyUnwritten S.Store self.old self.new (TriesEvent (Event.Result id.now completion brought))) }
        ensures crash { EnduresAlways S.Store (Adds (Event.Result id.now completion brought)) self.old self.new }
    {
        match prepare_result(&mut self.tables, id, completion, brought) {
            Ok(made) => self.record_arrival(made),
            Err(why) => Err(why),
        }
    }

    /// Begins an attempt at this moment, in milliseconds: it is live, and an earlier one is over.
    pub fn begin(&mut self, id: &ByteStr, now: u64) -> Result<BegunAttempt, Refusal>
        ensures does { Leads S.Store (BeginsAttempt id.now now result) self.old self.new }
        ensures waits { WaitsAfter id.now (Some []) result self.old.live.attempts self.new.live.attempts }
        ensures settled { OnOk result (Settles S.Store (BeginsAttempt id.now now result) self.old self.new) }
        ensures kept { OnErr result (AreTablesKept (state S.Store self.old.connection) (state S.Store self.new.connection)) }
        ensures cause { IfErr result (TellsWhyUnwritten S.Store self.old self.new (TriesEvent (Event.Begin id.now now))) }
        ensures crash { EnduresAlways S.Store (BeginsSome id.now now) self.old self.new }
    {
        match prepare_begin(&mut self.tables, id, now) {
            Ok(made) => self.record_begin(id, made),
            Err(why) => Err(why),
        }
    }
}
