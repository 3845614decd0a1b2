// All of the frames among bytes that came are taken.
ghost use Rattle.std.specs.Prelude.{◌≡◌, ◌+◌, [], true, IfErr, IfOk, OnErr, vec_len, IfSome};
ghost use Rattle.journal_model.specs.Attempt.{is_live};
ghost use Rattle.store_refusals.specs.declared.refusal.Refusal.TheVariants.{OutOfMemory};
ghost use Rattle.store_calls.specs.Calls.{PutsBehind};
ghost use Rattle.store_calls.specs.Frames.{Accepts, AcceptsFirst, TakesFirstFrames, TakesFrames, TakesOne};
ghost use Rattle.journal_store.specs.OutputAcceptance.{SettlesFrames, SettlesNext, TakesNext, accepted_told};
ghost use Rattle.journal_store.specs.StoreStanding.{Endures, Leads};
ghost use Rattle.journal_store.specs.Words.{state, AreTablesKept, attempt_of, has_number};
ghost use Rattle.journal_store.specs.Causes.{TellsWhy, TellsWhyUnwritten, TriesFrame, TriesFrameBehind, TriesFrameOf};

use crate::joined::TakenFrames;
use crate::store::Store;
use bytes::ByteStr;
use sqlite::Alter;
use store_refusals::Refusal;
use store_steps::FrameReply;

/// The frames that were taken, and why no further one was.
#[derive(Debug, Drop)]
pub struct Accepted {
    /// The answers to the frames that were taken, in their order.
    pub replies: Vec<FrameReply>,
    /// Why the next frame was refused; nothing where none waits whole, or the last one ended the attempt.
    pub refusal: Option<Refusal>,
}

/// Takes the next frame of a live attempt, for whose answer room is made before. Whether there may be one more.
fn take_next<S: Alter + Drop>(
    store: &mut Store<S>,
    id: &ByteStr,
    attempt: u32,
    replies: &mut Vec<FrameReply>,
) -> Result<bool, Refusal>
    ensures len { IfOk result (λ goes_on. goes_on ≡ true → vec_len replies.new ≡ vec_len replies.old + 1) }
    ensures does { Leads S.Store (TakesNext id.now attempt result replies.old.items replies.new.items) store.old store.new }
    ensures settled { SettlesNext S.Store id.now attempt result replies.old.items replies.new.items store.old store.new }
    ensures kept { replies.new.items ≡ replies.old.items → AreTablesKept (state S.Store store.old.connection) (state S.Store store.new.connection) }
    ensures cause { IfErr result (TellsWhyUnwritten S.Store store.old store.new (TriesFrame id.now attempt)) }
    ensures crash { Endures S.Store (TakesOne id.now attempt) store.old store.new }
{
    if replies.reserve(1).is_err() {
        return Err(Refusal::OutOfMemory);
    }
    match store.step(id, attempt) {
        Ok(Some(reply)) => {
            replies.push_reserved(reply);
            Ok(!reply.ends_attempt())
        }
        Ok(None) => Ok(false),
        Err(why) => Err(why),
    }
}

/// Takes the frames of a live attempt: up to one that ends it, or one that is refused, or until none waits whole. The first of them are
/// taken in one transaction, as far as they can be.
fn take_all<S: Alter + Drop>(store: &mut Store<S>, id: &ByteStr, attempt: u32) -> Accepted
    ensures does { Leads S.Store (λ s t. is_live s.events id.now attempt ≡ true → TakesFrames id.now attempt result.replies.items result.refusal s t) store.old store.new }
    ensures settled { SettlesFrames S.Store (λ s m. m ≡ s) id.now attempt result.replies.items result.refusal store.old store.new }
    ensures kept { result.replies.items ≡ [] → AreTablesKept (state S.Store store.old.connection) (state S.Store store.new.connection) }
    ensures cause { IfSome result.refusal (TellsWhyUnwritten S.Store store.old store.new (TriesFrameBehind id.now attempt result.replies.items)) }
    ensures crash { Endures S.Store (TakesFirstFrames id.now attempt) store.old store.new }
{
    let TakenFrames {
        mut replies,
        does_end,
    } = store.take_joined(id, attempt);
    if does_end {
        return Accepted {
            replies,
            refusal: None,
        };
    }
    loop {
        match take_next(store, id, attempt, &mut replies) {
            Ok(true) => {}
            Ok(false) => {
                return Accepted {
                    replies,
                    refusal: None,
                };
            }
            Err(why) => {
                return Accepted {
                    replies,
                    refusal: Some(why),
                };
            }
        }
    }
}

impl<S: Alter + Drop> Store<S> {
    /// Takes in the next bytes that the attempt wrote, and the frames among them: up to one that ends it, or one that is refused, or
    /// until none waits whole. An `Err` is a refusal of the bytes. Where no frame is answered the tables are as they were.
    pub fn accept(&mut self, id: &ByteStr, attempt: u32, bytes: &[u8]) -> Result<Accepted, Refusal>
        ensures does { Leads S.Store (Accepts id.now attempt bytes.now (accepted_told result)) self.old self.new }
        ensures live { has_number attempt (attempt_of self.old.live.attempts id.now) ≡ true → IfErr result (λ why. why ≡ OutOfMemory) }
        ensures settled { IfOk result (λ accepted. SettlesFrames S.Store (PutsBehind id.now attempt bytes.now) id.now attempt accepted.replies.items accepted.refusal self.old self.new) }
        ensures kept { OnErr result (AreTablesKept (state S.Store self.old.connection) (state S.Store self.new.connection)) }
        ensures kept_unanswered { IfOk result (λ accepted. accepted.replies.items ≡ [] → AreTablesKept (state S.Store self.old.connection) (state S.Store self.new.connection)) }
        ensures cause { IfErr result (TellsWhy S.Store self.old self.new) }
        ensures cause_of_frame { IfOk result (λ accepted. IfSome accepted.refusal (TellsWhyUnwritten S.Store self.old self.new (TriesFrameOf id.now attempt bytes.now accepted.replies.items))) }
        ensures crash { Endures S.Store (AcceptsFirst id.now attempt bytes.now) self.old self.new }
    {
        match self.push(id, attempt, bytes) {
            Ok(()) => Ok(take_all(self, id, attempt)),
            Err(why) => Err(why),
        }
    }
}
