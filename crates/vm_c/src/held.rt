// What is behind a handle.
ghost use Rattle.std.specs.Prelude.{◌≡◌, []};
ghost use Rattle.vm_c.specs.Calls.{reply_in};

use bytes::Bytes;
use std::mem;
use vm_c_machine::Machine;
use vm_c_values::NotDone;

/// A machine, and the reply of its last call.
#[derive(Drop)]
pub struct Held {
    pub machine: Machine,
    pub reply: Bytes,
}

impl Held {
    /// A machine that was not called yet.
    pub(crate) fn new(machine: Machine) -> Held
        ensures { result ≡ record { machine = machine; reply = [] } }
    {
        Held {
            machine,
            reply: Bytes::new(),
        }
    }

    /// The reply is what a call has answered, and empty where it is not done.
    pub(crate) fn answer(&mut self, done: Result<Bytes, NotDone>)
        ensures { self.new ≡ record { machine = self.old.machine; reply = reply_in done } }
    {
        let reply = match done {
            Ok(reply) => reply,
            Err(_) => Bytes::new(),
        };
        let earlier = mem::replace(&mut self.reply, reply);
        drop(earlier);
    }
}
