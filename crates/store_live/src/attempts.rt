// The live attempts by their invocations.
ghost use Rattle.std.specs.Prelude.{◌≡◌, ◌∷◌, ◌<◌, ◌≤◌, [], length, Some, None, IfOk, OnOk, OnErr};
ghost use Rattle.std.specs.Option.{ForSome, option_copied};
ghost use Rattle.store_live.specs.Attempts.{attempt_of, ChangesInput, CountsFrame, IsNow, ChangesLive, bytes_out, after_hand_out, live_after_frame, after_outcome, after_reserve, after_close, after_output, live_after_take};
ghost use Rattle.store_live.specs.Rows.{AreNoted, live_with_progress};

use crate::attempt::LiveAttempt;
use crate::input::FrameRead;
use bytes::{ByteStr, Bytes};
use indexmap::IndexMap;
use std::alloc::{AllocError, Global};
use std::marker::Model;
use std::mem::replace;
use store_tables::{Progress, Write};

/// The attempts that are live, one at most of each invocation, by the invocations' ids.
///
/// Nothing is done, and no memory asked for, where no attempt of the invocation is live.
///
/// An attempt is found by the hash of its id, whose seed is the same in every run. Ids come from whoever invokes: where they
/// are chosen so that their hashes meet, a look-up is at worst as slow as one that goes through all attempts.
#[derive(Debug, Drop)]
pub struct LiveAttempts {
    attempts: IndexMap<ByteStr, LiveAttempt>,
    /// For how many more attempts room was made. The map may have room for more, also where a call failed.
    room: usize,
}

impl Model for LiveAttempts {
    ghost use Rattle.std.specs.Prelude.{◌≤◌};
    ghost use Rattle.indexmap.specs.IndexMap.{spare};
    ghost use Rattle.store_live.specs.Attempts.{Attempts};

    ghost Value = { Attempts };

    ghost view = { λ live. record { attempts = live.attempts.entries; room = live.room } };

    ghost invariant = { λ live. live.room ≤ spare live.attempts };
}

impl LiveAttempts {
    /// None is live.
    pub fn new(alloc: Global) -> LiveAttempts
        ensures { result.attempts ≡ [] }
    {
        LiveAttempts {
            attempts: IndexMap::new(alloc),
            room: 0,
        }
    }

    /// The live attempt of an invocation.
    pub fn get(&self, id: &ByteStr) -> Option<&LiveAttempt>
        ensures { option_copied result ≡ attempt_of self.now.attempts id.now }
    {
        self.attempts.get(id)
    }

    /// Makes room for one more attempt.
    pub fn reserve_one(&mut self) -> Result<(), AllocError>
        ensures kept { self.new.attempts ≡ self.old.attempts }
        ensures room { OnOk result (0 < self.new.room) }
        ensures err { OnErr result (self.new ≡ self.old) }
    {
        self.attempts.reserve(1)?;
        self.room = self.room.max(1);
        Ok(())
    }

    /// Takes in an attempt that was begun, by the id of its invocation: an earlier one is over. Room was made for it.
    pub fn put_begun(&mut self, id: ByteStr, attempt: LiveAttempt)
        requires { 0 < self.old.room }
        ensures { IsNow id (Some attempt) self.old.attempts self.new.attempts }
    {
        drop(self.attempts.insert(id, attempt).unwrap());
        self.room -= 1;
    }

    /// The attempt of an invocation is over.
    pub fn remove(&mut self, id: &ByteStr)
        ensures { IsNow id.now None self.old.attempts self.new.attempts }
    {
        drop(self.attempts.swap_remove(id));
    }

    /// Hands out the next bytes of the frame of an attempt's input that was read last: as many as are left of it, and at most so many.
    #[tactic(auto, using(std::proofs::lemmas::Map::Steps::set_value_same))]
    pub fn hand_out(&mut self, id: &ByteStr, most: usize) -> Result<Bytes, AllocError>
        ensures bytes { IfOk result (λ bytes. bytes ≡ bytes_out most (attempt_of self.old.attempts id.now)) }
        ensures rest { OnOk result (ChangesLive id.now (after_hand_out most) self.old.attempts self.new.attempts) }
        ensures err { OnErr result (self.new ≡ self.old) }
    {
        match self.attempts.get_mut(id) {
            Some(attempt) => attempt.input.hand_out(most),
            None => Ok(Bytes::new()),
        }
    }

    /// Takes in the next frame of an attempt's input, which was read from its row.
    pub fn put_frame(&mut self, id: &ByteStr, frame: FrameRead)
        ensures counted { CountsFrame frame (attempt_of self.old.attempts id.now) → ChangesLive id.now (live_after_frame frame) self.old.attempts self.new.attempts }
        ensures input { ChangesInput id.now self.old.attempts self.new.attempts }
    {
        match self.attempts.get_mut(id) {
            Some(attempt) => attempt.input.put_frame(frame),
            None => drop(frame),
        }
    }

    /// Makes room for one more outcome that an attempt is to be told of by an acknowledgement.
    #[tactic(auto, using(std::proofs::lemmas::Map::Steps::set_value_same))]
    pub fn reserve_outcome(&mut self, id: &ByteStr) -> Result<(), AllocError>
        ensures ok { OnOk result (ChangesLive id.now after_reserve self.old.attempts self.new.attempts) }
        ensures room { OnOk result (ForSome (attempt_of self.new.attempts id.now) (λ attempt. attempt.input.room ≡ 1)) }
        ensures err { OnErr result (self.new ≡ self.old) }
    {
        match self.attempts.get_mut(id) {
            Some(attempt) => attempt.input.reserve_outcome(),
            None => Ok(()),
        }
    }

    /// The outcome of this completion is to be acknowledged to an attempt. Room was made for it.
    pub fn note_outcome(&mut self, id: &ByteStr, completion: u32)
        requires { ForSome (attempt_of self.old.attempts id.now) (λ attempt. 0 < attempt.input.room) }
        ensures { ChangesLive id.now (after_outcome completion) self.old.attempts self.new.attempts }
    {
        if let Some(attempt) = self.attempts.get_mut(id) {
            attempt.input.note_outcome(completion);
        }
    }

    /// Closes an attempt's input.
    pub fn close_input(&mut self, id: &ByteStr)
        ensures { ChangesLive id.now after_close self.old.attempts self.new.attempts }
    {
        if let Some(attempt) = self.attempts.get_mut(id) {
            attempt.is_input_closed = true;
        }
    }

    /// The next bytes that an attempt wrote came.
    #[tactic(auto, using(std::proofs::lemmas::Map::Steps::set_value_same))]
    pub fn push_output(&mut self, id: &ByteStr, bytes: &[u8]) -> Result<(), AllocError>
        ensures ok { OnOk result (ChangesLive id.now (after_output bytes.now) self.old.attempts self.new.attempts) }
        ensures err { OnErr result (self.new ≡ self.old) }
    {
        match self.attempts.get_mut(id) {
            Some(attempt) => attempt.output.push(bytes),
            None => Ok(()),
        }
    }

    /// Drops the first bytes that an attempt wrote, which were taken.
    pub fn advance_output(&mut self, id: &ByteStr, count: usize)
        requires { ForSome (attempt_of self.old.attempts id.now) (λ attempt. count ≤ length attempt.output) }
        ensures { ChangesLive id.now (live_after_take count) self.old.attempts self.new.attempts }
    {
        if let Some(attempt) = self.attempts.get_mut(id) {
            attempt.output.advance(count);
        }
    }

    /// This is how far an invocation is now.
    fn set_progress(&mut self, id: &ByteStr, progress: Progress)
        ensures { ChangesLive id.now (live_with_progress progress) self.old.attempts self.new.attempts }
    {
        match self.attempts.get_mut(id) {
            Some(attempt) => drop(replace(&mut attempt.row.progress, progress)),
            None => drop(progress),
        }
    }

    fn note_one(&mut self, write: Write)
        ensures { AreNoted (write ∷ []) self.old.attempts self.new.attempts }
    {
        match write {
            Write::SetProgress { id, progress } => {
                self.set_progress(&id, progress);
                drop(id);
            }
            write => drop(write),
        }
    }

    /// Takes in what was written: the rows of live attempts are as they are recorded then. No memory is asked for.
    pub fn note_written(&mut self, writes: Vec<Write>)
        ensures { AreNoted writes.items self.old.attempts self.new.attempts }
    {
        for write in writes {
            self.note_one(write);
        }
    }
}
