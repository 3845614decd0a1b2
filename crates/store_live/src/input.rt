// How far an attempt was handed its input.
ghost use Rattle.std.specs.Prelude.{◌≡◌, ◌+◌, ◌==◌, ◌^◌, ◌<◌, [], length, take, IfOk, OnOk, OnErr};
ghost use Rattle.store_live.specs.Input.{CanCount, at_begin, input_handed_out, is_first, next_ordinal, next_row, with_frame, with_outcome_kept, with_room};

use bytes::Bytes;
use std::alloc::{AllocError, Global};
use std::collections::VecDeque;
use std::marker::Model;

/// From which row the next frame of an input is read.
#[derive(Clone, Copy, Debug, PartialEq, Eq)]
pub enum NextRow {
    /// That of the entry at this place, the input at 0: it was known when the attempt was begun.
    Entry(u32),
    /// That of the arrival with this ordinal among its invocation's, from 1.
    Arrival(u32),
}

/// The next frame of an input, as it was read from its row.
#[derive(Debug, Drop)]
pub struct FrameRead {
    pub place: u32,
    pub is_arrival: bool,
    /// Whether it tells only that the outcome came which the attempt itself has proposed.
    pub is_acknowledgement: bool,
    pub bytes: Bytes,
}

/// How far an attempt was handed its input: which row is the next, and what is left of the frame that was read last.
///
/// Nothing of what is recorded is kept here. An arrival that comes is read from its row once all before it were handed out.
#[derive(Debug, Drop)]
pub struct AttemptInput {
    known: u32,
    arrivals: u32,
    read: u32,
    behind: u32,
    counted: u32,
    rest: Bytes,
    handed: u32,
    heard: u32,
    unread: VecDeque<u32>,
    room: usize,
}

impl Model for AttemptInput {
    ghost use Rattle.std.specs.Prelude.{◌≤◌, ◌+◌};
    ghost use Rattle.std.specs.VecDeque.{deque_len, deque_capacity};
    ghost use Rattle.store_live.specs.Input.{InputKept};

    ghost Value = { InputKept };

    ghost view = { λ input. record {
      known = input.known;
      arrivals = input.arrivals;
      read = input.read;
      behind = input.behind;
      counted = input.counted;
      rest = input.rest;
      handed = input.handed;
      heard = input.heard;
      unread = input.unread.items;
      room = input.room;
    } };

    ghost invariant = { λ input. deque_len input.unread + input.room ≤ deque_capacity input.unread };
}

impl AttemptInput {
    /// That of an attempt that is begun when so many frames, and so many arrivals among them, are recorded.
    pub fn new(alloc: Global, known: u32, arrivals: u32) -> AttemptInput
        ensures { result ≡ at_begin known arrivals }
    {
        AttemptInput {
            known,
            arrivals,
            read: 0,
            behind: 0,
            counted: 0,
            rest: Bytes::new(),
            handed: 0,
            heard: 0,
            unread: VecDeque::new(alloc),
            room: 0,
        }
    }

    /// Whether all that was read was handed out: then a row is to be read.
    pub fn is_read_out(&self) -> bool
        ensures { result ≡ (length self.now.rest == 0) }
    {
        self.rest.is_empty()
    }

    /// From which row the next frame is read.
    pub fn next_row(&self) -> NextRow
        ensures { next_ordinal self.now < 2 ^ 32 → result ≡ next_row self.now }
    {
        if self.known <= self.read {
            let later = self.arrivals.saturating_add(self.read - self.known);
            NextRow::Arrival(later.saturating_add(1))
        } else {
            NextRow::Entry(self.read)
        }
    }

    /// Whether the next arrival's outcome is to be acknowledged, if it is that of this completion.
    pub fn is_to_acknowledge(&self, completion: u32) -> bool
        ensures { result ≡ is_first self.now.unread completion }
    {
        match self.unread.front() {
            Some(first) => *first == completion,
            None => false,
        }
    }

    /// The place behind the last frame that was handed out whole: 0 where none was.
    pub fn handed(&self) -> u32
        ensures { result ≡ self.now.handed }
    {
        self.handed
    }

    /// How many arrivals were handed out whole.
    pub fn heard(&self) -> u32
        ensures { result ≡ self.now.heard }
    {
        self.heard
    }

    /// Takes in the next frame, which was read from its row, once all before it was handed out.
    pub fn put_frame(&mut self, frame: FrameRead)
        ensures { CanCount self.old frame → self.new ≡ with_frame frame self.old }
    {
        let FrameRead {
            place,
            is_arrival,
            is_acknowledgement,
            bytes,
        } = frame;
        self.read = self.read.saturating_add(1);
        self.behind = place.saturating_add(1);
        if is_arrival {
            self.counted = self.counted.saturating_add(1);
        }
        self.rest = bytes;
        if is_acknowledgement {
            let _read = self.unread.pop_front();
        }
    }

    /// Hands out the next bytes of the frame that was read last: as many as are left of it, and at most so many.
    pub fn hand_out(&mut self, most: usize) -> Result<Bytes, AllocError>
        ensures bytes { IfOk result (λ bytes. bytes ≡ take most self.old.rest) }
        ensures rest { OnOk result (self.new ≡ input_handed_out most self.old) }
        ensures err { OnErr result (self.new ≡ self.old) }
    {
        let count = self.rest.len().min(most);
        if count == 0 {
            return Ok(Bytes::new());
        }
        let bytes = self.rest.split_to(count)?;
        if self.rest.is_empty() {
            self.handed = self.behind;
            self.heard = self.counted;
        }
        Ok(bytes)
    }

    /// Makes room for one more outcome that is to be acknowledged.
    pub fn reserve_outcome(&mut self) -> Result<(), AllocError>
        ensures ok { OnOk result (self.new ≡ with_room self.old) }
        ensures err { OnErr result (self.new ≡ self.old) }
    {
        self.unread.reserve(1)?;
        self.room = 1;
        Ok(())
    }

    /// The outcome of this completion is to be acknowledged. Room was made for it.
    pub fn note_outcome(&mut self, completion: u32)
        requires { 0 < self.old.room }
        ensures { self.new ≡ with_outcome_kept completion self.old }
    {
        self.unread.push_back_reserved(completion);
        self.room = 0;
    }
}
