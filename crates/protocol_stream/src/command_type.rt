// The types of commands, as a handler's author speaks of them.
ghost use Rattle.std.specs.Prelude.{◌≡◌, Some};
ghost use Rattle.protocol_stream.specs.CommandType.{command_words, message_type_of, command_type_of};

use crate::MessageType;
use std::fmt;

/// The type of a command, of which an eager and a lazy read are one, and the cancellation of an invocation is its own.
#[derive(Clone, Copy, Debug, PartialEq, Eq)]
pub enum CommandType {
    Input,
    Output,
    GetState,
    GetStateKeys,
    SetState,
    ClearState,
    ClearAllState,
    GetPromise,
    PeekPromise,
    CompletePromise,
    Sleep,
    Call,
    OneWayCall,
    SendSignal,
    Run,
    AttachInvocation,
    GetInvocationOutput,
    CompleteAwakeable,
    CancelInvocation,
}

impl CommandType {
    /// What the command is called where it is printed.
    pub fn words(self) -> &'static str
        ensures { result.now ≡ command_words self }
    {
        match self {
            CommandType::Input => "handler input",
            CommandType::Output => "handler return",
            CommandType::GetState => "get state",
            CommandType::GetStateKeys => "get state keys",
            CommandType::SetState => "set state",
            CommandType::ClearState => "clear state",
            CommandType::ClearAllState => "clear all state",
            CommandType::GetPromise => "get promise",
            CommandType::PeekPromise => "peek promise",
            CommandType::CompletePromise => "complete promise",
            CommandType::Sleep => "sleep",
            CommandType::Call => "call",
            CommandType::OneWayCall => "one way call/send",
            CommandType::SendSignal => "send signal",
            CommandType::Run => "run",
            CommandType::AttachInvocation => "attach invocation",
            CommandType::GetInvocationOutput => "get invocation output",
            CommandType::CompleteAwakeable => "complete awakeable",
            CommandType::CancelInvocation => "cancel invocation",
        }
    }
}

impl fmt::Display for CommandType {
    ghost output = { λ command. Some (command_words command) };

    fn fmt<W: fmt::Write>(&self, f: &mut fmt::Formatter<W>) -> fmt::Result {
        f.write_str(self.words())
    }
}

/// A read is its lazy command, and a cancellation the signal that it sends.
impl From<CommandType> for MessageType {
    ghost from_gives = { λ command ty. ty ≡ message_type_of command };

    fn from(command: CommandType) -> MessageType {
        match command {
            CommandType::Input => MessageType::InputCommand,
            CommandType::Output => MessageType::OutputCommand,
            CommandType::GetState => MessageType::GetLazyStateCommand,
            CommandType::GetStateKeys => MessageType::GetLazyStateKeysCommand,
            CommandType::SetState => MessageType::SetStateCommand,
            CommandType::ClearState => MessageType::ClearStateCommand,
            CommandType::ClearAllState => MessageType::ClearAllStateCommand,
            CommandType::GetPromise => MessageType::GetPromiseCommand,
            CommandType::PeekPromise => MessageType::PeekPromiseCommand,
            CommandType::CompletePromise => MessageType::CompletePromiseCommand,
            CommandType::Sleep => MessageType::SleepCommand,
            CommandType::Call => MessageType::CallCommand,
            CommandType::OneWayCall => MessageType::OneWayCallCommand,
            CommandType::SendSignal | CommandType::CancelInvocation => {
                MessageType::SendSignalCommand
            }
            CommandType::Run => MessageType::RunCommand,
            CommandType::AttachInvocation => MessageType::AttachInvocationCommand,
            CommandType::GetInvocationOutput => MessageType::GetInvocationOutputCommand,
            CommandType::CompleteAwakeable => MessageType::CompleteAwakeableCommand,
        }
    }
}

/// Both ways of reading are one command. What is no command with a name is handed back.
impl TryFrom<MessageType> for CommandType {
    type Error = MessageType;

    ghost try_from_gives = { λ ty read. read ≡ command_type_of ty };

    fn try_from(ty: MessageType) -> Result<CommandType, MessageType> {
        match ty {
            MessageType::InputCommand => Ok(CommandType::Input),
            MessageType::OutputCommand => Ok(CommandType::Output),
            MessageType::GetLazyStateCommand | MessageType::GetEagerStateCommand => {
                Ok(CommandType::GetState)
            }
            MessageType::GetLazyStateKeysCommand | MessageType::GetEagerStateKeysCommand => {
                Ok(CommandType::GetStateKeys)
            }
            MessageType::SetStateCommand => Ok(CommandType::SetState),
            MessageType::ClearStateCommand => Ok(CommandType::ClearState),
            MessageType::ClearAllStateCommand => Ok(CommandType::ClearAllState),
            MessageType::GetPromiseCommand => Ok(CommandType::GetPromise),
            MessageType::PeekPromiseCommand => Ok(CommandType::PeekPromise),
            MessageType::CompletePromiseCommand => Ok(CommandType::CompletePromise),
            MessageType::SleepCommand => Ok(CommandType::Sleep),
            MessageType::CallCommand => Ok(CommandType::Call),
            MessageType::OneWayCallCommand => Ok(CommandType::OneWayCall),
            MessageType::SendSignalCommand => Ok(CommandType::SendSignal),
            MessageType::RunCommand => Ok(CommandType::Run),
            MessageType::AttachInvocationCommand => Ok(CommandType::AttachInvocation),
            MessageType::GetInvocationOutputCommand => Ok(CommandType::GetInvocationOutput),
            MessageType::CompleteAwakeableCommand => Ok(CommandType::CompleteAwakeable),
            other => Err(other),
        }
    }
}
