// What a message that comes is to a machine.
ghost use Rattle.std.specs.Prelude.{◌≡◌, ◌==◌};
ghost use Rattle.protocol_types.specs.MessageType.{type_number};
ghost use Rattle.vm_machine.specs.MessageKinds.{control_of, incoming_of};

use protocol_types::MessageType;

/// What a message that comes is to a machine.
#[derive(Clone, Copy, Debug, PartialEq, Eq)]
pub enum Incoming {
    Start,
    /// A command that was recorded before.
    Command,
    Notification,
    /// What was proposed of a run is recorded.
    RunAcknowledgement,
    /// The answer of an ephemeral read.
    EphemeralAnswer,
    /// Nothing that a machine is told.
    Other,
}

// Whether both types have one number.
fn is_numbered_as(one: MessageType, other: MessageType) -> bool
    ensures { result ≡ (type_number one == type_number other) }
{
    u16::from(one) == u16::from(other)
}

// What is neither a command nor a notification.
fn control(ty: MessageType) -> Incoming
    ensures { result ≡ control_of ty }
{
    if is_numbered_as(ty, MessageType::Start) {
        return Incoming::Start;
    }
    if is_numbered_as(ty, MessageType::ProposeRunCompletionAck) {
        return Incoming::RunAcknowledgement;
    }
    if is_numbered_as(ty, MessageType::GetStateEphemeralNotification) {
        return Incoming::EphemeralAnswer;
    }
    Incoming::Other
}

/// What a message of this type is to a machine.
pub fn kind_of(ty: MessageType) -> Incoming
    ensures { result ≡ incoming_of ty }
{
    if ty.is_command() {
        return Incoming::Command;
    }
    if ty.is_notification() {
        return Incoming::Notification;
    }
    control(ty)
}
