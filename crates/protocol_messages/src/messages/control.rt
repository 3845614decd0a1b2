// The records of the attempt itself, and its first commands.
use crate::message::{PlainMessage, RestateMessage};
use protocol_controls::{
    ErrorMessage, GetStateEphemeralCommandMessage, GetStateEphemeralNotificationMessage,
    ProposeRunCompletionAckMessage, ProposeRunCompletionMessage,
};
use protocol_records::{
    AwaitingOnMessage, EndMessage, InputCommandMessage, OutputCommandMessage, SleepCommandMessage,
    StartMessage, SuspensionMessage, SuspensionMessageV6,
};
use protocol_stream::MessageType;

impl RestateMessage for StartMessage {
    fn ty() -> MessageType {
        MessageType::Start
    }
}

impl PlainMessage for StartMessage {}

impl RestateMessage for ErrorMessage {
    fn ty() -> MessageType {
        MessageType::Error
    }
}

impl PlainMessage for ErrorMessage {}

impl RestateMessage for EndMessage {
    fn ty() -> MessageType {
        MessageType::End
    }
}

impl PlainMessage for EndMessage {}

impl RestateMessage for AwaitingOnMessage {
    fn ty() -> MessageType {
        MessageType::AwaitingOn
    }
}

impl PlainMessage for AwaitingOnMessage {}

impl RestateMessage for ProposeRunCompletionMessage {
    fn ty() -> MessageType {
        MessageType::ProposeRunCompletion
    }
}

impl PlainMessage for ProposeRunCompletionMessage {}

impl RestateMessage for ProposeRunCompletionAckMessage {
    fn ty() -> MessageType {
        MessageType::ProposeRunCompletionAck
    }
}

impl PlainMessage for ProposeRunCompletionAckMessage {}

impl RestateMessage for GetStateEphemeralCommandMessage {
    fn ty() -> MessageType {
        MessageType::GetStateEphemeralCommand
    }
}

impl PlainMessage for GetStateEphemeralCommandMessage {}

impl RestateMessage for GetStateEphemeralNotificationMessage {
    fn ty() -> MessageType {
        MessageType::GetStateEphemeralNotification
    }
}

impl PlainMessage for GetStateEphemeralNotificationMessage {}

impl RestateMessage for InputCommandMessage {
    fn ty() -> MessageType {
        MessageType::InputCommand
    }
}

impl PlainMessage for InputCommandMessage {}

impl RestateMessage for OutputCommandMessage {
    fn ty() -> MessageType {
        MessageType::OutputCommand
    }
}

impl PlainMessage for OutputCommandMessage {}

impl RestateMessage for SleepCommandMessage {
    fn ty() -> MessageType {
        MessageType::SleepCommand
    }
}

impl PlainMessage for SleepCommandMessage {}

impl RestateMessage for SuspensionMessage {
    fn ty() -> MessageType {
        MessageType::Suspension
    }
}

impl RestateMessage for SuspensionMessageV6 {
    fn ty() -> MessageType {
        MessageType::Suspension
    }
}
