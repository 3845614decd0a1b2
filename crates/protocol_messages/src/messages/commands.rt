// The commands that stay within an invocation.
use crate::message::{PlainMessage, RestateMessage};
use protocol_commands::{
    ClearAllStateCommandMessage, ClearStateCommandMessage, CompletePromiseCommandMessage,
    GetEagerStateCommandMessage, GetEagerStateKeysCommandMessage, GetLazyStateCommandMessage,
    GetLazyStateKeysCommandMessage, GetPromiseCommandMessage, PeekPromiseCommandMessage,
    RunCommandMessage, SetStateCommandMessage,
};
use protocol_stream::MessageType;

impl RestateMessage for GetLazyStateCommandMessage {
    fn ty() -> MessageType {
        MessageType::GetLazyStateCommand
    }
}

impl PlainMessage for GetLazyStateCommandMessage {}

impl RestateMessage for SetStateCommandMessage {
    fn ty() -> MessageType {
        MessageType::SetStateCommand
    }
}

impl PlainMessage for SetStateCommandMessage {}

impl RestateMessage for ClearStateCommandMessage {
    fn ty() -> MessageType {
        MessageType::ClearStateCommand
    }
}

impl PlainMessage for ClearStateCommandMessage {}

impl RestateMessage for ClearAllStateCommandMessage {
    fn ty() -> MessageType {
        MessageType::ClearAllStateCommand
    }
}

impl PlainMessage for ClearAllStateCommandMessage {}

impl RestateMessage for GetLazyStateKeysCommandMessage {
    fn ty() -> MessageType {
        MessageType::GetLazyStateKeysCommand
    }
}

impl PlainMessage for GetLazyStateKeysCommandMessage {}

impl RestateMessage for GetEagerStateCommandMessage {
    fn ty() -> MessageType {
        MessageType::GetEagerStateCommand
    }
}

impl PlainMessage for GetEagerStateCommandMessage {}

impl RestateMessage for GetEagerStateKeysCommandMessage {
    fn ty() -> MessageType {
        MessageType::GetEagerStateKeysCommand
    }
}

impl PlainMessage for GetEagerStateKeysCommandMessage {}

impl RestateMessage for GetPromiseCommandMessage {
    fn ty() -> MessageType {
        MessageType::GetPromiseCommand
    }
}

impl PlainMessage for GetPromiseCommandMessage {}

impl RestateMessage for PeekPromiseCommandMessage {
    fn ty() -> MessageType {
        MessageType::PeekPromiseCommand
    }
}

impl PlainMessage for PeekPromiseCommandMessage {}

impl RestateMessage for CompletePromiseCommandMessage {
    fn ty() -> MessageType {
        MessageType::CompletePromiseCommand
    }
}

impl PlainMessage for CompletePromiseCommandMessage {}

impl RestateMessage for RunCommandMessage {
    fn ty() -> MessageType {
        MessageType::RunCommand
    }
}

impl PlainMessage for RunCommandMessage {}
