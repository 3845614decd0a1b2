//! What is done outside: each effect is a line in a file, the ledger. Nothing is paid in truth.
use crate::job::Job;
use durable_schedule::options::{OnMaxAttempts, RetryPolicy};
use durable_schedule::{ByteStr, Bytes, Effects, Error, Host, Input, RunOutcome, Straight};
use std::alloc::Global;
use std::fs::OpenOptions;
use std::io;
use std::io::Write;
use std::rt::HostRuntime;
use std::time::Duration;

/// What cannot be done now is tried again in a second, however often it takes.
fn every_second() -> RetryPolicy {
    RetryPolicy::fixed_delay(
        Some(Duration::from_secs(1)),
        None,
        None,
        OnMaxAttempts::FailAsTerminal,
    )
}

/// Gives each job its handler, and executes what it asks for.
#[derive(Drop)]
pub struct Outside<'a> {
    pub rt: &'a HostRuntime,
    pub alloc: Global,
    /// The name of the file whose lines tell what was done.
    pub ledger: String,
}

impl Outside<'_> {
    /// Puts a line at the end of the ledger, which is made where it is not there.
    fn write_line(&self, invocation: &ByteStr, name: &ByteStr) -> io::Result<()> {
        let line = format!(in self.alloc; "{invocation}: {name}\n")?;
        let mut options = OpenOptions::new();
        options.append(true).create(true);
        let mut ledger = options.open(self.rt, self.ledger.as_str())?;
        ledger.write_all(line.as_bytes())?;
        ledger.sync_all()
    }
}

impl Effects for Outside<'_> {
    /// Of Ben's orders none is paid. Where no line can be written, it is tried again.
    fn execute(&mut self, invocation: &ByteStr, name: &ByteStr, _input: &Input) -> RunOutcome {
        if self.write_line(invocation, name).is_err() {
            let why = Error::internal(ByteStr::from_static("the ledger cannot be written"));
            return RunOutcome::again(why, Duration::ZERO, every_second());
        }
        if invocation.as_str() == "Ben" && name.as_str() == "pay" {
            return RunOutcome::failed(self.alloc, 402, ByteStr::from_static("not paid"));
        }
        RunOutcome::done(Bytes::from_static(b"receipt"))
    }
}

impl Host<Straight<Job>> for Outside<'_> {
    fn handler(&mut self, _invocation: &ByteStr) -> Straight<Job> {
        Straight {
            alloc: self.alloc,
            handler: Job,
        }
    }
}
