// What frames attempts write.
ghost use Rattle.std.specs.Prelude.{◌≡◌};
ghost use Rattle.store_frames.specs.Kind.{frame_kind, record_of};

use protocol_stream::MessageType;
use protocol_wire::RecordType;

/// What a message of a type is for.
#[derive(Clone, Copy, Debug, PartialEq, Eq)]
pub enum FrameKind {
    Command,
    AwaitingOn,
    Suspension,
    Error,
    End,
    /// The outcome of a run, which an attempt proposes.
    RunOutcome,
    Other,
}

/// What messages of this type are for.
pub(crate) fn kind_of(ty: MessageType) -> FrameKind
    ensures { result ≡ frame_kind ty }
{
    match ty {
        MessageType::OutputCommand
        | MessageType::GetLazyStateCommand
        | MessageType::GetLazyStateKeysCommand
        | MessageType::SetStateCommand
        | MessageType::ClearStateCommand
        | MessageType::ClearAllStateCommand
        | MessageType::GetEagerStateCommand
        | MessageType::GetEagerStateKeysCommand
        | MessageType::GetPromiseCommand
        | MessageType::PeekPromiseCommand
        | MessageType::CompletePromiseCommand
        | MessageType::SleepCommand
        | MessageType::CallCommand
        | MessageType::OneWayCallCommand
        | MessageType::SendSignalCommand
        | MessageType::RunCommand
        | MessageType::AttachInvocationCommand
        | MessageType::GetInvocationOutputCommand
        | MessageType::CompleteAwakeableCommand => FrameKind::Command,
        MessageType::AwaitingOn => FrameKind::AwaitingOn,
        MessageType::Suspension => FrameKind::Suspension,
        MessageType::Error => FrameKind::Error,
        MessageType::End => FrameKind::End,
        MessageType::ProposeRunCompletion => FrameKind::RunOutcome,
        _ => FrameKind::Other,
    }
}

/// The record that payloads of this type are, if any. Of frames that attempts may write, payloads have readers of their own.
pub(crate) fn record_of(ty: MessageType) -> Option<RecordType>
    ensures { result ≡ record_of ty }
{
    match ty {
        MessageType::Start => Some(RecordType::Start),
        MessageType::Suspension => Some(RecordType::Suspension),
        MessageType::Error => Some(RecordType::Error),
        MessageType::End => Some(RecordType::End),
        MessageType::AwaitingOn => Some(RecordType::AwaitingOn),
        MessageType::ProposeRunCompletion => Some(RecordType::ProposeRunCompletion),
        MessageType::ProposeRunCompletionAck => Some(RecordType::ProposeRunCompletionAck),
        MessageType::GetStateEphemeralCommand => Some(RecordType::GetStateEphemeralCommand),
        MessageType::GetStateEphemeralNotification => {
            Some(RecordType::GetStateEphemeralNotification)
        }
        MessageType::InputCommand => Some(RecordType::InputCommand),
        MessageType::OutputCommand => Some(RecordType::OutputCommand),
        MessageType::GetLazyStateCommand => Some(RecordType::GetLazyStateCommand),
        MessageType::SetStateCommand => Some(RecordType::SetStateCommand),
        MessageType::ClearStateCommand => Some(RecordType::ClearStateCommand),
        MessageType::ClearAllStateCommand => Some(RecordType::ClearAllStateCommand),
        MessageType::GetLazyStateKeysCommand => Some(RecordType::GetLazyStateKeysCommand),
        MessageType::GetEagerStateCommand => Some(RecordType::GetEagerStateCommand),
        MessageType::GetEagerStateKeysCommand => Some(RecordType::GetEagerStateKeysCommand),
        MessageType::GetPromiseCommand => Some(RecordType::GetPromiseCommand),
        MessageType::PeekPromiseCommand => Some(RecordType::PeekPromiseCommand),
        MessageType::CompletePromiseCommand => Some(RecordType::CompletePromiseCommand),
        MessageType::SleepCommand => Some(RecordType::SleepCommand),
        MessageType::CallCommand => Some(RecordType::CallCommand),
        MessageType::OneWayCallCommand => Some(RecordType::OneWayCallCommand),
        MessageType::SendSignalCommand => Some(RecordType::SendSignalCommand),
        MessageType::RunCommand => Some(RecordType::RunCommand),
        MessageType::AttachInvocationCommand => Some(RecordType::AttachInvocationCommand),
        MessageType::GetInvocationOutputCommand => Some(RecordType::GetInvocationOutputCommand),
        MessageType::CompleteAwakeableCommand => Some(RecordType::CompleteAwakeableCommand),
        MessageType::GetLazyStateCompletionNotification => Some(RecordType::Notification),
        MessageType::GetLazyStateKeysCompletionNotification => Some(RecordType::Notification),
        MessageType::GetPromiseCompletionNotification => Some(RecordType::Notification),
        MessageType::PeekPromiseCompletionNotification => Some(RecordType::Notification),
        MessageType::CompletePromiseCompletionNotification => Some(RecordType::Notification),
        MessageType::SleepCompletionNotification => Some(RecordType::Notification),
        MessageType::CallCompletionNotification => Some(RecordType::Notification),
        MessageType::CallInvocationIdCompletionNotification => Some(RecordType::Notification),
        MessageType::RunCompletionNotification => Some(RecordType::Notification),
        MessageType::AttachInvocationCompletionNotification => Some(RecordType::Notification),
        MessageType::GetInvocationOutputCompletionNotification => Some(RecordType::Notification),
        MessageType::SignalNotification => Some(RecordType::Notification),
        MessageType::CustomEntry(_) => None,
    }
}
