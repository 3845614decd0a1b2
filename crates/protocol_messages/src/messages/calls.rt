// The commands towards other invocations.
use crate::message::{PlainMessage, RestateMessage};
use protocol_calls::{
    AttachInvocationCommandMessage, CallCommandMessage, CompleteAwakeableCommandMessage,
    GetInvocationOutputCommandMessage, OneWayCallCommandMessage, SendSignalCommandMessage,
};
use protocol_stream::MessageType;

impl RestateMessage for CallCommandMessage {
    fn ty() -> MessageType {
        MessageType::CallCommand
    }
}

impl PlainMessage for CallCommandMessage {}

impl RestateMessage for OneWayCallCommandMessage {
    fn ty() -> MessageType {
        MessageType::OneWayCallCommand
    }
}

impl PlainMessage for OneWayCallCommandMessage {}

impl RestateMessage for SendSignalCommandMessage {
    fn ty() -> MessageType {
        MessageType::SendSignalCommand
    }
}

impl PlainMessage for SendSignalCommandMessage {}

impl RestateMessage for AttachInvocationCommandMessage {
    fn ty() -> MessageType {
        MessageType::AttachInvocationCommand
    }
}

impl PlainMessage for AttachInvocationCommandMessage {}

impl RestateMessage for GetInvocationOutputCommandMessage {
    fn ty() -> MessageType {
        MessageType::GetInvocationOutputCommand
    }
}

impl PlainMessage for GetInvocationOutputCommandMessage {}

impl RestateMessage for CompleteAwakeableCommandMessage {
    fn ty() -> MessageType {
        MessageType::CompleteAwakeableCommand
    }
}

impl PlainMessage for CompleteAwakeableCommandMessage {}
