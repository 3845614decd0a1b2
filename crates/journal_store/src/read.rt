// What a store tells of an invocation, and of an object.
ghost use Rattle.std.specs.Prelude.{◌≡◌, map, IfErr};
ghost use Rattle.journal_model.specs.Journal.{is_open, object_state};
ghost use Rattle.store_model.specs.KeptRecords.{state_row};
ghost use Rattle.store_model.specs.Progress.{last_error_of};
ghost use Rattle.store_invocations.specs.JournalContent.{entries_told};
ghost use Rattle.store_invocations.specs.InvocationAnswers.{answer_told};
ghost use Rattle.store_reads.specs.OpenRequests.{open_requests};
ghost use Rattle.journal_store.specs.StoreStanding.{IsQuiet, TellsAlways, TellsOf};
ghost use Rattle.journal_store.specs.Causes.{TellsWhy};

use crate::store::Store;
use bytes::ByteStr;
use journal_model::NonEmptyValue;
use sqlite::Alter;
use store_invocations::{RecordedEntry, answer, entries, failure, is_open, object_states};
use store_reads::{OpenRequest, open_requests};
use store_refusals::Refusal;
use store_tables::{LastError, StateRow};

impl<S: Alter + Drop> Store<S> {
    /// The recorded requests and arrivals, by place.
    pub fn entries(&mut self, id: &ByteStr) -> Result<Vec<RecordedEntry>, Refusal>
        ensures told { TellsOf S.Store id.now (λ events entries. entries.items ≡ entries_told events id.now) result self.old self.new }
        ensures live { self.new.live ≡ self.old.live }
        ensures cause { IfErr result (TellsWhy S.Store self.old self.new) }
        ensures crash { IsQuiet S.Store self.old self.new }
    {
        entries(&mut self.tables, id)
    }

    /// What a closed invocation answers: what its last output put out, or the failure that closed it. Nothing where it is open, and
    /// where it ended with no output.
    pub fn answer(&mut self, id: &ByteStr) -> Result<Option<NonEmptyValue>, Refusal>
        ensures told { TellsOf S.Store id.now (λ events answer. answer ≡ answer_told events id.now) result self.old self.new }
        ensures live { self.new.live ≡ self.old.live }
        ensures cause { IfErr result (TellsWhy S.Store self.old self.new) }
        ensures crash { IsQuiet S.Store self.old self.new }
    {
        answer(&mut self.tables, id)
    }

    /// The last error that an attempt told: its code, what was to be done, its delay and its message.
    pub fn failure(&mut self, id: &ByteStr) -> Result<Option<LastError>, Refusal>
        ensures told { TellsOf S.Store id.now (λ events error. error ≡ last_error_of events id.now) result self.old self.new }
        ensures live { self.new.live ≡ self.old.live }
        ensures cause { IfErr result (TellsWhy S.Store self.old self.new) }
        ensures crash { IsQuiet S.Store self.old self.new }
    {
        failure(&mut self.tables, id)
    }

    /// Whether an invocation is open.
    pub fn is_open(&mut self, id: &ByteStr) -> Result<bool, Refusal>
        ensures told { TellsOf S.Store id.now (λ events answer. answer ≡ is_open events id.now) result self.old self.new }
        ensures live { self.new.live ≡ self.old.live }
        ensures cause { IfErr result (TellsWhy S.Store self.old self.new) }
        ensures crash { IsQuiet S.Store self.old self.new }
    {
        is_open(&mut self.tables, id)
    }

    /// What an open invocation has asked of others and nobody has answered, by place: calls, the ids of what was called or sent to,
    /// attaching, asking for an output, and promises. A sleep ends by a tick, and a run by the attempt. A closed one asks for nothing more:
    /// of it no journal is read.
    pub fn open_requests(&mut self, id: &ByteStr) -> Result<Vec<OpenRequest>, Refusal>
        ensures told { TellsOf S.Store id.now (λ events requests. requests.items ≡ open_requests events id.now) result self.old self.new }
        ensures live { self.new.live ≡ self.old.live }
        ensures cause { IfErr result (TellsWhy S.Store self.old self.new) }
        ensures crash { IsQuiet S.Store self.old self.new }
    {
        open_requests(&mut self.tables, id)
    }

    /// The values of an object's state, by ascending keys: what the requests of its invocations, closed ones too, have made of it.
    pub fn state(&mut self, object: &ByteStr) -> Result<Vec<StateRow>, Refusal>
        ensures told { TellsAlways S.Store (λ events states. states.items ≡ map (state_row object.now) (object_state events object.now)) result self.old self.new }
        ensures live { self.new.live ≡ self.old.live }
        ensures cause { IfErr result (TellsWhy S.Store self.old self.new) }
        ensures crash { IsQuiet S.Store self.old self.new }
    {
        object_states(&mut self.tables, object)
    }
}
