// The types of messages, and their numbers on the wire.
ghost use Rattle.std.specs.Prelude.{◌≡◌, Some};
ghost use Rattle.std.specs.Fmt.{WritesOnOk};
ghost use Rattle.protocol_types.specs.TypeText.{type_name, number_text, type_text};
ghost use Rattle.protocol_types.specs.MessageType.{type_number, named_type, type_numbered, is_command, is_notification, allows_ack};

use std::fmt;
use thiserror::Error;

/// The type of a message, as its header names it.
///
/// `CustomEntry` stands for the numbers of no named type whose six highest bits are not all zero. Other numbers
/// are unknown.
#[derive(Clone, Copy, Debug, PartialEq, Eq)]
pub enum MessageType {
    Start,
    Suspension,
    Error,
    End,
    AwaitingOn,
    ProposeRunCompletion,
    ProposeRunCompletionAck,
    GetStateEphemeralCommand,
    GetStateEphemeralNotification,
    InputCommand,
    OutputCommand,
    GetLazyStateCommand,
    SetStateCommand,
    ClearStateCommand,
    ClearAllStateCommand,
    GetLazyStateKeysCommand,
    GetEagerStateCommand,
    GetEagerStateKeysCommand,
    GetPromiseCommand,
    PeekPromiseCommand,
    CompletePromiseCommand,
    SleepCommand,
    CallCommand,
    OneWayCallCommand,
    SendSignalCommand,
    RunCommand,
    AttachInvocationCommand,
    GetInvocationOutputCommand,
    CompleteAwakeableCommand,
    GetLazyStateCompletionNotification,
    GetLazyStateKeysCompletionNotification,
    GetPromiseCompletionNotification,
    PeekPromiseCompletionNotification,
    CompletePromiseCompletionNotification,
    SleepCompletionNotification,
    CallCompletionNotification,
    /// Of a call and of a send.
    CallInvocationIdCompletionNotification,
    RunCompletionNotification,
    AttachInvocationCompletionNotification,
    GetInvocationOutputCompletionNotification,
    SignalNotification,
    CustomEntry(u16),
}

/// The number of a header that means no type.
#[derive(Clone, Copy, Debug, PartialEq, Eq, Error)]
#[error("unknown message type {0:#06x}")]
pub struct UnknownMessageType(pub u16);

// The one table of names and numbers. `$then` is given what it is to be used for, and then the rows.
macro_rules! with_numbers {
    ($then:ident $value:expr) => {
        $then! { $value;
            0x0000 Start,
            0x0001 Suspension,
            0x0002 Error,
            0x0003 End,
            0x0004 AwaitingOn,
            0x0005 ProposeRunCompletion,
            0x0006 ProposeRunCompletionAck,
            0x0007 GetStateEphemeralCommand,
            0x0008 GetStateEphemeralNotification,
            0x0400 InputCommand,
            0x0401 OutputCommand,
            0x0402 GetLazyStateCommand,
            0x0403 SetStateCommand,
            0x0404 ClearStateCommand,
            0x0405 ClearAllStateCommand,
            0x0406 GetLazyStateKeysCommand,
            0x0407 GetEagerStateCommand,
            0x0408 GetEagerStateKeysCommand,
            0x0409 GetPromiseCommand,
            0x040a PeekPromiseCommand,
            0x040b CompletePromiseCommand,
            0x040c SleepCommand,
            0x040d CallCommand,
            0x040e OneWayCallCommand,
            0x040f SendSignalCommand,
            0x0410 RunCommand,
            0x0411 AttachInvocationCommand,
            0x0412 GetInvocationOutputCommand,
            0x0413 CompleteAwakeableCommand,
            0x8002 GetLazyStateCompletionNotification,
            0x8006 GetLazyStateKeysCompletionNotification,
            0x8009 GetPromiseCompletionNotification,
            0x800a PeekPromiseCompletionNotification,
            0x800b CompletePromiseCompletionNotification,
            0x800c SleepCompletionNotification,
            0x800d CallCompletionNotification,
            0x800e CallInvocationIdCompletionNotification,
            0x8010 RunCompletionNotification,
            0x8011 AttachInvocationCompletionNotification,
            0x8012 GetInvocationOutputCompletionNotification,
            0xfbff SignalNotification
        }
    };
}

macro_rules! number_in_table {
    ($ty:expr; $($number:literal $name:ident),*) => {
        match $ty {
            $(MessageType::$name => $number,)*
            MessageType::CustomEntry(number) => number,
        }
    };
}

macro_rules! type_in_table {
    ($value:expr; $($number:literal $name:ident),*) => {
        match $value {
            $($number => Some(MessageType::$name),)*
            _ => None,
        }
    };
}

macro_rules! name_in_table {
    ($ty:expr; $($number:literal $name:ident),*) => {
        match $ty {
            $(MessageType::$name => stringify!($name),)*
            MessageType::CustomEntry(_) => "CustomEntry",
        }
    };
}

impl From<MessageType> for u16 {
    ghost from_gives = { λ ty number. number ≡ type_number ty };

    fn from(ty: MessageType) -> u16 {
        with_numbers!(number_in_table ty)
    }
}

impl TryFrom<u16> for MessageType {
    type Error = UnknownMessageType;

    ghost try_from_gives = { λ number read. read ≡ type_numbered number };

    fn try_from(number: u16) -> Result<MessageType, UnknownMessageType> {
        match MessageType::with_number(u32::from(number)) {
            Some(ty) => Ok(ty),
            None if number & 0xFC00 == 0 => Err(UnknownMessageType(number)),
            None => Ok(MessageType::CustomEntry(number)),
        }
    }
}

impl MessageType {
    /// The type with a name that has this number.
    #[tactic(auto, unfolding(crate::specs::MessageType::named_type))]
    pub fn with_number(number: u32) -> Option<MessageType>
        ensures { result ≡ named_type number }
    {
        with_numbers!(type_in_table number)
    }

    /// Whether the number has the command bit: `number & 0xFC00` is `0x0400`.
    pub fn is_command(self) -> bool
        ensures { result ≡ is_command self }
    {
        u16::from(self) & 0xFC00 == 0x0400
    }

    /// Whether the highest bit of the number is set.
    pub fn is_notification(self) -> bool
        ensures { result ≡ is_notification self }
    {
        u16::from(self) & 0x8000 != 0
    }

    /// Whether a header of this type says if an acknowledgement is requested.
    pub fn allows_ack(self) -> bool
        ensures { result ≡ allows_ack self }
    {
        matches!(self, MessageType::ProposeRunCompletion)
    }

    // The name of the type.
    fn name(self) -> &'static str
        ensures { result.now ≡ type_name self }
    {
        with_numbers!(name_in_table self)
    }

    // Writes the number of a custom entry.
    fn write_number<W: fmt::Write>(self, f: &mut fmt::Formatter<W>) -> fmt::Result
        ensures { WritesOnOk W.write_str_gives f.old result (number_text self) f.new }
    {
        match self {
            MessageType::CustomEntry(number) => write!(f, "({number})"),
            _ => Ok(()),
        }
    }
}

/// Prints the name, and the number of a custom entry, as `Debug` does.
impl fmt::Display for MessageType {
    ghost output = { λ ty. Some (type_text ty) };

    fn fmt<W: fmt::Write>(&self, f: &mut fmt::Formatter<W>) -> fmt::Result {
        f.write_str(self.name())?;
        self.write_number(f)
    }
}
