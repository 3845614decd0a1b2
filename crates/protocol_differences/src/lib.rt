//! How two commands differ, as text: a line for each field that header equality compares and that is not the same. And errors
//! about one command: that it is not the recorded one, and which command an error is about.
#![tactic(auto)]

ghost use Rattle.std.specs.Prelude.{◌≡◌, ◌↔◌, ℕ, List, [], false};
ghost use Rattle.std.specs.Fmt.{WritesOnOk};

mod commands;
mod laws;
mod lines;
mod mismatch;
mod relationship;

pub use laws::differences_are_shown;
pub use mismatch::CommandMismatchError;
use protocol_equality::CommandMessageHeaderEq;
pub use protocol_equality::NamedCommandMessage;
pub use protocol_errors::{CommandMetadata, InvocationErrorCode, WithInvocationErrorCode, codes};
pub use relationship::CommandRelationship;
use std::fmt;

/// A command whose difference from the recorded one can be printed.
pub trait CommandMessageHeaderDiff: CommandMessageHeaderEq {
    ghost difference: { Self → Self → List ℕ };

    /// Writes a line for each field that differs, with what this command and the other hold there, payloads too. Each line
    /// begins with a line feed.
    fn write_diff<W: fmt::Write>(&self, expected: &Self, f: &mut fmt::Formatter<W>) -> fmt::Result
        ensures { WritesOnOk W.write_str_gives f.old result (difference self.now expected.now) f.new };

    // Nothing is written exactly of commands that are header-equal with their payloads.
    ghost silent: { (x y : Self) → (difference x y ≡ []) ↔ (Self.erased false x ≡ Self.erased false y) };
}
