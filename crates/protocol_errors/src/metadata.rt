// What errors tell of commands and notifications.
ghost use Rattle.std.specs.Prelude.{◌≡◌, Some, None};

use bytes::ByteStr;
use protocol_stream::MessageType;
use std::fmt;

/// A command of the journal, as an error names it.
#[derive(Clone, Debug, Drop)]
pub struct CommandMetadata {
    /// Its place in the journal.
    pub index: u32,
    pub ty: MessageType,
    pub name: Option<ByteStr>,
}

impl CommandMetadata {
    /// A command without a name.
    pub fn new(index: u32, ty: MessageType) -> CommandMetadata
        ensures { result ≡ record { index = index; ty = ty; name = None } }
    {
        CommandMetadata {
            index,
            ty,
            name: None,
        }
    }

    /// A command with a name.
    pub fn new_named(name: ByteStr, index: u32, ty: MessageType) -> CommandMetadata
        ensures { result ≡ record { index = index; ty = ty; name = Some name } }
    {
        CommandMetadata {
            index,
            ty,
            name: Some(name),
        }
    }
}

/// Prints the type, and the name, or the place where there is none.
impl fmt::Display for CommandMetadata {
    ghost use Rattle.protocol_errors.specs.Texts.{command_text};

    ghost output = { λ command. Some (command_text command) };

    fn fmt<W: fmt::Write>(&self, f: &mut fmt::Formatter<W>) -> fmt::Result {
        let ty = self.ty;
        match &self.name {
            Some(name) => write!(f, "{ty} [{name}]"),
            None => {
                let index = self.index;
                write!(f, "{ty} [{index}]")
            }
        }
    }
}

/// What an id that is waited for stands for.
#[derive(Debug, Drop)]
pub enum NotificationMetadata {
    /// The completion of a command.
    RelatedToCommand(CommandMetadata),
    /// The signal of the awakeable with this id.
    Awakeable(ByteStr),
    /// The signal that cancels the invocation.
    Cancellation,
}

impl fmt::Display for NotificationMetadata {
    ghost use Rattle.protocol_errors.specs.Texts.{notification_text};

    ghost output = { λ told. Some (notification_text told) };

    fn fmt<W: fmt::Write>(&self, f: &mut fmt::Formatter<W>) -> fmt::Result {
        match self {
            NotificationMetadata::RelatedToCommand(command) => write!(f, "{command}"),
            NotificationMetadata::Awakeable(id) => write!(f, "Awakeable {id}"),
            NotificationMetadata::Cancellation => write!(f, "Cancellation"),
        }
    }
}
