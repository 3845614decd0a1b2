//! How a time is taken, and how it is printed.
use crate::fault::Fault;
use std::fmt;
use std::rt::HostRuntime;
use std::time::{Clock, CpuClock, Duration};

fn look(rt: &HostRuntime, by_clock: bool) -> Result<Duration, Fault> {
    if by_clock {
        Ok(rt.monotonic()?)
    } else {
        Ok(rt.thread_cpu_time()?)
    }
}

/// Tells the time from one look at it to the next.
#[derive(Clone, Copy)]
pub struct Stopwatch {
    by_clock: bool,
    last: Duration,
}

impl Stopwatch {
    /// The first look, at the time that the processor takes, or at the clock, where a disk is waited for.
    pub fn start(rt: &HostRuntime, by_clock: bool) -> Result<Stopwatch, Fault> {
        let last = look(rt, by_clock)?;
        Ok(Stopwatch { by_clock, last })
    }

    /// The time since the last look.
    pub fn lap(&mut self, rt: &HostRuntime) -> Result<Duration, Fault> {
        let now = look(rt, self.by_clock)?;
        let lap = now.saturating_sub(self.last);
        self.last = now;
        Ok(lap)
    }
}

/// What one of so many took, in hundredths of a microsecond, printed as microseconds.
#[derive(Clone, Copy)]
pub struct Micros(u128);

impl Micros {
    /// What one of the events took, of what all of them took.
    pub fn each(took: Duration, events: u32) -> Micros {
        Micros(took.as_nanos() / (events.max(1) as u128) / 10)
    }
}

impl fmt::Display for Micros {
    fn fmt<W: fmt::Write>(&self, f: &mut fmt::Formatter<W>) -> fmt::Result {
        let (whole, rest) = (self.0 / 100, self.0 % 100);
        write!(f, "{whole}.{rest:02}")
    }
}
