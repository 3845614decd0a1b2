//! Until when an invocation is put off whose attempt has failed. Memory alone has that: of a store that is opened anew nothing is put off.
ghost use Rattle.std.specs.Prelude.{◌≡◌, [], Some};
ghost use Rattle.scheduler.specs.PutOff.{IsNow, Notes, delay_by, earlier, first_moment, is_later, is_paused, is_put_off, moment_after, usual_delay, wait_after, wait_by, wait_of};

use crate::outcome::Outcome;
use bytes::ByteStr;
use indexmap::IndexMap;
use protocol_errors::ErrorBehavior;
use std::alloc::Global;
use std::marker::Model;
use std::time::Duration;

/// What is put off at first where no other delay is asked for, in milliseconds. It doubles each time, up to `LONGEST`.
const FIRST: u64 = 50;

const LONGEST: u64 = 10_000;

/// Until when an invocation is put off, in milliseconds: where no moment is told, until it is resumed. And by what it is put off the usual
/// way, of which the next delay is twice as long.
#[derive(Clone, Copy, Debug)]
struct Wait {
    until: Option<u64>,
    delay: u64,
}

/// The invocations that are put off.
#[derive(Drop)]
pub struct Waits {
    waits: IndexMap<ByteStr, Wait>,
}

impl Model for Waits {
    ghost use Rattle.scheduler.specs.PutOff.{PutOff};

    ghost Value = { PutOff };

    ghost view = { λ waits. waits.waits.entries };

    ghost invariant = { λ waits. Unit {0} };
}

fn usual_delay(before: Option<Wait>) -> u64
    ensures { result ≡ usual_delay before }
{
    match before {
        None => FIRST,
        Some(wait) => wait.delay.saturating_mul(2).min(LONGEST),
    }
}

fn moment_after(now: u64, asked: Option<Duration>, usual: u64) -> u64
    ensures { result ≡ moment_after now (delay_by asked usual) }
{
    match asked {
        None => now.saturating_add(usual),
        Some(delay) => match u64::try_from(delay.as_millis()) {
            Ok(millis) => now.saturating_add(millis),
            Err(_) => u64::MAX,
        },
    }
}

/// How long an invocation is put off by this behavior of what its attempt has failed with.
fn wait_by(
    behavior: ErrorBehavior,
    asked: Option<Duration>,
    now: u64,
    before: Option<Wait>,
) -> Option<Wait>
    ensures { result ≡ wait_by behavior asked now before }
{
    let delay = usual_delay(before);
    match behavior {
        ErrorBehavior::Retry => Some(Wait {
            until: Some(moment_after(now, asked, delay)),
            delay,
        }),
        ErrorBehavior::Pause => Some(Wait { until: None, delay }),
        ErrorBehavior::Fail => None,
    }
}

fn wait_after(outcome: &Outcome, now: u64, before: Option<Wait>) -> Option<Wait>
    ensures { result ≡ wait_after outcome.now now before }
{
    match outcome {
        Outcome::Ended | Outcome::Suspended => None,
        Outcome::Failed(error) => wait_by(error.behavior(), error.next_retry_delay(), now, before),
        Outcome::Unfinished | Outcome::Refused(_) => {
            wait_by(ErrorBehavior::Retry, None, now, before)
        }
    }
}

/// The earlier of two moments, where there are any.
fn earlier(one: Option<u64>, other: Option<u64>) -> Option<u64>
    ensures { result ≡ earlier one other }
{
    match (one, other) {
        (Some(one), Some(other)) => Some(one.min(other)),
        (Some(one), None) => Some(one),
        (None, other) => other,
    }
}

impl Waits {
    /// Nothing is put off.
    pub fn new(alloc: Global) -> Waits
        ensures { result ≡ [] }
    {
        Waits {
            waits: IndexMap::new(alloc),
        }
    }

    /// Whether an invocation is put off to a later moment than this, or until it is resumed.
    pub fn is_put_off(&self, id: &ByteStr, now: u64) -> bool
        ensures { result ≡ is_put_off (wait_of self.now id.now) now }
    {
        match self.waits.get(id) {
            None => false,
            Some(wait) => match wait.until {
                None => true,
                Some(until) => now < until,
            },
        }
    }

    /// Whether no attempt of an invocation is made until it is resumed.
    pub fn is_paused(&self, id: &ByteStr) -> bool
        ensures { result ≡ is_paused (wait_of self.now id.now) }
    {
        match self.waits.get(id) {
            None => false,
            Some(wait) => wait.until.is_none(),
        }
    }

    /// An invocation is put off no longer.
    pub fn resume(&mut self, id: &ByteStr)
        ensures { IsNow id.now None self.old self.new }
    {
        drop(self.waits.swap_remove(id));
    }

    /// The earliest moment to which something is put off: `run_due` goes on with it then. What is paused has none.
    pub fn next_moment(&self) -> Option<u64>
        ensures { result ≡ first_moment self.now }
    {
        let mut first = None;
        for (_, wait) in self.waits.iter() {
            first = earlier(first, wait.until);
        }
        first
    }

    /// An invocation is put off so, unless there is no memory for that.
    fn put_off(&mut self, id: &ByteStr, wait: Wait)
        ensures { Notes id.now (Some wait) self.old self.new }
    {
        let Ok(id) = id.clone() else {
            return;
        };
        drop(self.waits.insert(id, wait));
    }

    /// An attempt of an invocation has come to this, at this moment.
    pub(crate) fn note(&mut self, id: &ByteStr, now: u64, outcome: &Outcome)
        ensures { Notes id.now (wait_after outcome.now now (wait_of self.old id.now)) self.old self.new }
    {
        match wait_after(outcome, now, self.waits.get(id).copied()) {
            None => self.resume(id),
            Some(wait) => self.put_off(id, wait),
        }
    }
}
