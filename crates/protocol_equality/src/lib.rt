//! When two commands are header-equal: which fields a replayed command must share with the recorded one. Below it, when two
//! records are the same, field by field, also where the payloads that they hold are ignored. Nothing here takes memory.
#![tactic(auto)]

ghost use Rattle.std.specs.Prelude.{◌≡◌, ℕ, Bool, true, false, IsTrue, ◌↔◌, List};

mod calls;
mod choices;
mod commands;
mod laws;
mod names;
mod parts;
mod payloads;
mod records;
mod same;

pub use laws::header_equality_is_an_equivalence;
pub use protocol_calls::{
    AttachInvocationCommandMessage, CallCommandMessage, CompleteAwakeableCommandMessage,
    GetInvocationOutputCommandMessage, OneWayCallCommandMessage, SendSignalCommandMessage,
};
pub use protocol_commands::{
    ClearAllStateCommandMessage, ClearStateCommandMessage, CompletePromiseCommandMessage,
    GetEagerStateCommandMessage, GetEagerStateKeysCommandMessage, GetLazyStateCommandMessage,
    GetLazyStateKeysCommandMessage, GetPromiseCommandMessage, PeekPromiseCommandMessage,
    RunCommandMessage, SetStateCommandMessage,
};
pub use same::{Same, SameBesidesPayload};

/// A command with a name, which may be empty.
pub trait NamedCommandMessage {
    ghost name_of: { Self → List ℕ };

    /// The name that the handler gave the command.
    fn name(&self) -> &str
        ensures { result.now ≡ name_of self.now };
}

/// A command that is compared with the recorded one when it is replayed.
pub trait CommandMessageHeaderEq {
    // What is compared, where payloads are ignored or not: the rest is replaced by one and the same value.
    ghost erased: { Bool → Self → Self };

    /// Whether both are the same but for the fields that are not compared: all of an input, the moments of a sleep and of a
    /// send, and where it is asked for what they pass on, which is the content of a value or a parameter.
    fn header_eq(&self, other: &Self, ignore_payload_equality: bool) -> bool
        ensures { IsTrue result ↔ (erased ignore_payload_equality self.now ≡ erased ignore_payload_equality other.now) };

    // What is the same with payloads is so without.
    ghost coarser: { (x y : Self) → erased false x ≡ erased false y → erased true x ≡ erased true y };
}
