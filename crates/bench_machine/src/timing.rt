//! How a time is taken.
use crate::fault::Fault;
use std::rt::HostRuntime;
use std::time::{CpuClock, Duration};

/// Tells the processor's time from one look at it to the next.
#[derive(Clone, Copy)]
pub struct Stopwatch {
    last: Duration,
}

impl Stopwatch {
    /// The first look.
    pub fn start(rt: &HostRuntime) -> Result<Stopwatch, Fault> {
        let last = rt.thread_cpu_time()?;
        Ok(Stopwatch { last })
    }

    /// The time since the last look.
    pub fn lap(&mut self, rt: &HostRuntime) -> Result<Duration, Fault> {
        let now = rt.thread_cpu_time()?;
        let lap = now.saturating_sub(self.last);
        self.last = now;
        Ok(lap)
    }
}

/// What one of so many took, in nanoseconds, of what all of them took.
pub fn nanoseconds_each(took: Duration, count: usize) -> u128 {
    took.as_nanos() / (count.max(1) as u128)
}
