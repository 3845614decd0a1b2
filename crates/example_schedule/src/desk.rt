//! Who executes what handlers do outside, and gives each invocation its handler.
use crate::reminder::Reminder;
use crate::work::{Work, straight};
use durable_schedule::{ByteStr, Bytes, Effects, Host, Input, RunOutcome, Straight};
use std::alloc::Global;

/// Has orders paid, and counts how many it has.
#[derive(Drop)]
pub struct Desk {
    pub alloc: Global,
    pub paid: u32,
}

impl Desk {
    pub fn new(alloc: Global) -> Desk {
        Desk { alloc, paid: 0 }
    }
}

impl Effects for Desk {
    fn execute(&mut self, _invocation: &ByteStr, _name: &ByteStr, _input: &Input) -> RunOutcome {
        self.paid = self.paid.saturating_add(1);
        RunOutcome::done(Bytes::from_static(b"a receipt of the desk"))
    }
}

impl Host<Straight<Work>> for Desk {
    fn handler(&mut self, _invocation: &ByteStr) -> Straight<Work> {
        straight(self.alloc, Work::Reminder(Reminder))
    }
}
