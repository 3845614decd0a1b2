//! How a program goes on with what is due, and how an attempt is made event by event.
use crate::desk::Desk;
use crate::work::Work;
use durable_schedule::{
    Alter, ByteStr, Bytes, Event, EventRefusal, Outcome, RunOutcome, Scheduler, Straight, Waits,
};

/// Goes on with each invocation that is due at this moment, as far as it comes, and tells what came of each.
pub fn go_on<S: Alter + Drop>(
    scheduler: &mut Scheduler<Straight<Work>, S>,
    now: u64,
) -> Result<Vec<(ByteStr, Outcome)>, EventRefusal> {
    let mut desk = Desk::new(scheduler.alloc);
    let mut waits = Waits::new(scheduler.alloc);
    scheduler.run_due(now, &mut desk, &mut waits)
}

pub fn begin(id: &'static str, handler: Straight<Work>) -> Event<Straight<Work>> {
    Event::Begin {
        invocation: ByteStr::from_static(id),
        handler,
        now: 0,
    }
}

pub fn feed(id: &'static str, attempt: u32) -> Event<Straight<Work>> {
    Event::Feed {
        invocation: ByteStr::from_static(id),
        attempt,
        count: usize::MAX,
    }
}

/// A turn. Where it executes an effect, that has brought a receipt.
pub fn turn(id: &'static str, attempt: u32) -> Event<Straight<Work>> {
    Event::Turn {
        invocation: ByteStr::from_static(id),
        attempt,
        outcome: RunOutcome::done(Bytes::from_static(b"the first receipt")),
    }
}

pub fn move_output(id: &'static str, attempt: u32) -> Event<Straight<Work>> {
    Event::Move {
        invocation: ByteStr::from_static(id),
        attempt,
        count: usize::MAX,
    }
}

pub fn stop(id: &'static str, attempt: u32) -> Event<Straight<Work>> {
    Event::Stop {
        invocation: ByteStr::from_static(id),
        attempt,
    }
}

/// The first attempt of an invocation is stopped behind so many turns, as by a kill. What it has asked for by then is recorded.
pub fn cut_off<S: Alter + Drop>(
    scheduler: &mut Scheduler<Straight<Work>, S>,
    id: &'static str,
    handler: Straight<Work>,
    turns: u32,
) {
    scheduler.apply(begin(id, handler));
    scheduler.apply(feed(id, 1));
    for _ in 0..turns {
        scheduler.apply(turn(id, 1));
        scheduler.apply(move_output(id, 1));
    }
    scheduler.apply(stop(id, 1));
}
