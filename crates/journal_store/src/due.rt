// Which invocations there are, and which are due, and when the next sleep ends.
ghost use Rattle.std.specs.Prelude.{◌≡◌, not, filter, is_some, IfErr};
ghost use Rattle.std.specs.Option.{option_copied};
ghost use Rattle.journal_model.specs.Attempt.{due};
ghost use Rattle.due_laws.specs.NextMoment.{IsNextMoment};
ghost use Rattle.journal_store.specs.StoreStanding.{IsQuiet, TellsAlways};
ghost use Rattle.journal_store.specs.Words.{attempt_of};
ghost use Rattle.journal_store.specs.Causes.{TellsWhy};
ghost use Rattle.store_reads.specs.DuePage.{due_after};
ghost use Rattle.store_reads.specs.Page.{invocations_after};

use crate::store::Store;
use bytes::ByteStr;
use sqlite::Alter;
use store_live::LiveAttempts;
use store_reads::{awake_ids, due_after, invocations_after, next_moment};
use store_refusals::Refusal;
use store_tables::InvocationRow;

/// The ids without those of invocations with a live attempt.
fn leave_out_live(ids: &mut Vec<ByteStr>, live: &LiveAttempts)
    ensures { ids.new.items ≡ filter (λ id. not (is_some (attempt_of live.now.attempts id))) ids.old.items }
{
    ids.retain(|id| !live.get(id).is_some());
}

impl<S: Alter + Drop> Store<S> {
    /// The invocations that are due, by id: open ones of which no attempt is live, and which an attempt begun now may go on, by what the
    /// last one was not handed. No journal is read for it: it costs what it lists and the live attempts, however many invocations are open.
    pub fn due(&mut self) -> Result<Vec<ByteStr>, Refusal>
        ensures told { TellsAlways S.Store (λ events ids. ids.items ≡ due events) result self.old self.new }
        ensures live { self.new.live ≡ self.old.live }
        ensures cause { IfErr result (TellsWhy S.Store self.old self.new) }
        ensures crash { IsQuiet S.Store self.old self.new }
    {
        let mut ids = awake_ids(&mut self.tables)?;
        leave_out_live(&mut ids, &self.live);
        Ok(ids)
    }

    /// The first so many of those that are due whose ids are above one: behind the empty id, which no invocation has, the first of all. To
    /// go through them in parts, ask again behind the last id. Memory holds what is told, and one row; it costs a look-up for each
    /// invocation above the id until so many are found, closed ones too.
    pub fn due_after(&mut self, after: &ByteStr, most: usize) -> Result<Vec<ByteStr>, Refusal>
        ensures told { TellsAlways S.Store (λ events ids. ids.items ≡ due_after events after.now most) result self.old self.new }
        ensures live { self.new.live ≡ self.old.live }
        ensures cause { IfErr result (TellsWhy S.Store self.old self.new) }
        ensures crash { IsQuiet S.Store self.old self.new }
    {
        due_after(&mut self.tables, &self.live, after, most)
    }

    /// The first so many of the invocations whose ids are above one, or of all: open and closed ones, by id. To list those of a file in
    /// parts, ask again behind the last id. It costs a look-up for each, and reads no journal.
    pub fn invocations(
        &mut self,
        after: Option<&ByteStr>,
        most: usize,
    ) -> Result<Vec<InvocationRow>, Refusal>
        ensures told { TellsAlways S.Store (λ events rows. rows.items ≡ invocations_after events (option_copied after.entry) most) result self.old self.new }
        ensures live { self.new.live ≡ self.old.live }
        ensures cause { IfErr result (TellsWhy S.Store self.old self.new) }
        ensures crash { IsQuiet S.Store self.old self.new }
    {
        invocations_after(&mut self.tables, after, most)
    }

    /// Whether an attempt of an invocation is live.
    pub fn is_attempt_live(&self, id: &ByteStr) -> bool
        ensures { result ≡ is_some (attempt_of self.now.live.attempts id.now) }
    {
        self.live.get(id).is_some()
    }

    /// The first moment, in milliseconds, at which a tick ends a sleep, if there is one. It is found by one look-up.
    pub fn next_moment(&mut self) -> Result<Option<u64>, Refusal>
        ensures told { TellsAlways S.Store IsNextMoment result self.old self.new }
        ensures live { self.new.live ≡ self.old.live }
        ensures cause { IfErr result (TellsWhy S.Store self.old self.new) }
        ensures crash { IsQuiet S.Store self.old self.new }
    {
        next_moment(&mut self.tables)
    }
}
