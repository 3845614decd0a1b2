// The reads of an object's state whose answer was known when they were made.
ghost use Rattle.std.specs.Prelude.{◌≡◌, Option, None};
ghost use Rattle.vm_commands.specs.StateReads.{IsRetold};
ghost use Rattle.vm_commands.specs.RereadState.{value_retold, keys_retold};

use crate::Command;
use protocol_commands::{
    GetEagerStateCommandMessage, GetEagerStateCommandResult, GetEagerStateKeysCommandMessage,
    GetLazyStateCommandMessage, GetLazyStateKeysCommandMessage,
};
use protocol_records::StateKeys;

/// A read of an object's state whose answer was known when it was made.
pub trait EagerRead: Command {
    /// The same read, where the answer comes with a completion.
    type Lazy: Command;
    /// What was known.
    type Known: Drop;

    // What was known, where the record has it.
    ghost known: { Self → Option Self.Known };

    // The read without it.
    ghost bare: { Self → Self };

    // What the other read asks, without what was known.
    ghost asked: { Self.Lazy → Self };

    // What the other read asks, with what was known here.
    ghost retold: { Self → Self.Lazy → Self };

    /// Takes what was known out of the read.
    fn take_known(&mut self) -> Option<Self::Known>
        ensures known { result ≡ known self.old }
        ensures bare { self.new ≡ bare self.old };

    /// The read that asks the same.
    fn asking(lazy: Self::Lazy) -> Self
        ensures { result ≡ asked lazy };

    // So both are the read that a call makes, as it is recorded.
    ghost takes_over: { IsRetold Self.record_type Self.Lazy.record_type known bare asked retold Self.erased Self.request_of Self.Lazy.request_of };
}

impl EagerRead for GetEagerStateCommandMessage {
    type Lazy = GetLazyStateCommandMessage;

    type Known = GetEagerStateCommandResult;

    ghost known = { λ read. read.result };

    ghost bare = { λ read. record read { result = None } };

    ghost asked = { λ lazy. record { key = lazy.key; name = lazy.name; result = None } };

    ghost retold = { λ read lazy. record { key = lazy.key; name = lazy.name; result = read.result } };

    ghost takes_over = { value_retold };

    fn take_known(&mut self) -> Option<GetEagerStateCommandResult> {
        self.result.take()
    }

    fn asking(lazy: GetLazyStateCommandMessage) -> GetEagerStateCommandMessage {
        GetEagerStateCommandMessage {
            key: lazy.key,
            name: lazy.name,
            result: None,
        }
    }
}

impl EagerRead for GetEagerStateKeysCommandMessage {
    type Lazy = GetLazyStateKeysCommandMessage;

    type Known = StateKeys;

    ghost known = { λ read. read.value };

    ghost bare = { λ read. record read { value = None } };

    ghost asked = { λ lazy. record { name = lazy.name; value = None } };

    ghost retold = { λ read lazy. record { name = lazy.name; value = read.value } };

    ghost takes_over = { keys_retold };

    fn asking(lazy: GetLazyStateKeysCommandMessage) -> GetEagerStateKeysCommandMessage {
        GetEagerStateKeysCommandMessage {
            name: lazy.name,
            value: None,
        }
    }

    fn take_known(&mut self) -> Option<StateKeys> {
        self.value.take()
    }
}
