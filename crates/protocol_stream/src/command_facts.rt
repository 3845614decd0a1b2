// What each command asks for, what completes it, and what is kept of it: one line a command.
ghost use Rattle.std.specs.Prelude.{◌≡◌, Some};
ghost use Rattle.journal_model.specs.Cause.{is_failure as is_a_failure, is_invocation_id as is_an_id, is_outcome as is_an_outcome, is_void as is_a_void};
ghost use Rattle.protocol_stream.specs.CommandFacts.{accepts, asking_nothing, asking_one, asking_two, completion_at, completion_by, facts_of, is_answer, is_moment};

use crate::MessageType;
use journal_model::NotificationResult;

/// What brings a completion.
#[derive(Clone, Copy, Debug, PartialEq, Eq)]
pub enum CompletedBy {
    /// The store alone: it answers a read, and ends a sleep.
    Store,
    /// The attempt, which proposes what its run came to.
    Attempt,
    /// A call from outside, with the id of an invocation.
    InvocationId,
    /// A call from outside, with a value or a failure.
    Outcome,
    /// A call from outside, with nothing, a value or a failure.
    VoidOrOutcome,
    /// A call from outside, with nothing or a failure.
    VoidOrFailure,
}

/// A completion that a command asks for: the type of the notification by which it comes, and what brings it.
#[derive(Clone, Copy, Debug)]
pub struct Completion {
    pub notification: MessageType,
    pub completed_by: CompletedBy,
}

/// The completions that a command asks for, in the order of their ids.
#[derive(Clone, Copy, Debug)]
pub enum Completions {
    Nothing,
    One(Completion),
    Two(Completion, Completion),
}

/// What is kept of a command besides its entry and the ids that it asks for.
#[derive(Clone, Copy, Debug, PartialEq, Eq)]
pub enum Kept {
    Nothing,
    /// The value that it puts out, as the invocation's answer.
    Answer,
    /// When its sleep ends.
    Moment,
    /// What it makes of its object's state.
    State,
}

/// The line of a command.
#[derive(Clone, Copy, Debug)]
pub struct CommandFacts {
    pub completions: Completions,
    pub kept: Kept,
}

fn is_void(brought: &NotificationResult) -> bool
    ensures { result ≡ is_a_void brought.now }
{
    matches!(brought, NotificationResult::Void)
}

fn is_failure(brought: &NotificationResult) -> bool
    ensures { result ≡ is_a_failure brought.now }
{
    matches!(brought, NotificationResult::Failure(_))
}

fn is_outcome(brought: &NotificationResult) -> bool
    ensures { result ≡ is_an_outcome brought.now }
{
    matches!(
        brought,
        NotificationResult::Value(_) | NotificationResult::Failure(_)
    )
}

fn is_invocation_id(brought: &NotificationResult) -> bool
    ensures { result ≡ is_an_id brought.now }
{
    matches!(brought, NotificationResult::InvocationId(_))
}

impl CompletedBy {
    /// Whether a call from outside may bring this.
    pub fn accepts(self, brought: &NotificationResult) -> bool
        ensures { result ≡ accepts self brought.now }
    {
        match self {
            CompletedBy::Store | CompletedBy::Attempt => false,
            CompletedBy::InvocationId => is_invocation_id(brought),
            CompletedBy::Outcome => is_outcome(brought),
            CompletedBy::VoidOrOutcome => is_void(brought) || is_outcome(brought),
            CompletedBy::VoidOrFailure => is_void(brought) || is_failure(brought),
        }
    }
}

impl Kept {
    /// Whether it is the invocation's answer.
    pub fn is_answer(self) -> bool
        ensures { result ≡ is_answer self }
    {
        matches!(self, Kept::Answer)
    }

    /// Whether it is the moment at which the command completes.
    pub fn is_moment(self) -> bool
        ensures { result ≡ is_moment self }
    {
        matches!(self, Kept::Moment)
    }
}

impl Completions {
    /// The completion with the first id, or of two the one with the second.
    pub fn completion(self, is_second: bool) -> Option<Completion>
        ensures { result ≡ completion_at is_second self }
    {
        match self {
            Completions::Nothing => None,
            Completions::One(one) => Some(one),
            Completions::Two(first, second) => Some(if is_second { second } else { first }),
        }
    }
}

// A completion that comes by this notification.
fn by(notification: MessageType, completed_by: CompletedBy) -> Completion
    ensures { result ≡ completion_by notification completed_by }
{
    Completion {
        notification,
        completed_by,
    }
}

fn nothing(kept: Kept) -> Option<CommandFacts>
    ensures { result ≡ Some (asking_nothing kept) }
{
    Some(CommandFacts {
        completions: Completions::Nothing,
        kept,
    })
}

fn one(notification: MessageType, completed_by: CompletedBy, kept: Kept) -> Option<CommandFacts>
    ensures { result ≡ Some (asking_one notification completed_by kept) }
{
    Some(CommandFacts {
        completions: Completions::One(by(notification, completed_by)),
        kept,
    })
}

fn two(first: Completion, second: Completion) -> Option<CommandFacts>
    ensures { result ≡ Some (asking_two first second) }
{
    Some(CommandFacts {
        completions: Completions::Two(first, second),
        kept: Kept::Nothing,
    })
}

// The one table of commands, by the types of their messages.
macro_rules! facts_in_table {
    ($ty:expr) => {
        match $ty {
            MessageType::InputCommand => nothing(Kept::Nothing),
            MessageType::OutputCommand => nothing(Kept::Answer),
            MessageType::GetLazyStateCommand => one(MessageType::GetLazyStateCompletionNotification, CompletedBy::Store, Kept::Nothing),
            MessageType::SetStateCommand => nothing(Kept::State),
            MessageType::ClearStateCommand => nothing(Kept::State),
            MessageType::ClearAllStateCommand => nothing(Kept::State),
            MessageType::GetLazyStateKeysCommand => one(MessageType::GetLazyStateKeysCompletionNotification, CompletedBy::Store, Kept::Nothing),
            MessageType::GetEagerStateCommand => nothing(Kept::Nothing),
            MessageType::GetEagerStateKeysCommand => nothing(Kept::Nothing),
            MessageType::GetPromiseCommand => one(MessageType::GetPromiseCompletionNotification, CompletedBy::Outcome, Kept::Nothing),
            MessageType::PeekPromiseCommand => one(MessageType::PeekPromiseCompletionNotification, CompletedBy::VoidOrOutcome, Kept::Nothing),
            MessageType::CompletePromiseCommand => one(MessageType::CompletePromiseCompletionNotification, CompletedBy::VoidOrFailure, Kept::Nothing),
            MessageType::SleepCommand => one(MessageType::SleepCompletionNotification, CompletedBy::Store, Kept::Moment),
            MessageType::CallCommand => two(
                by(MessageType::CallInvocationIdCompletionNotification, CompletedBy::InvocationId),
                by(MessageType::CallCompletionNotification, CompletedBy::Outcome),
            ),
            MessageType::OneWayCallCommand => one(MessageType::CallInvocationIdCompletionNotification, CompletedBy::InvocationId, Kept::Nothing),
            MessageType::SendSignalCommand => nothing(Kept::Nothing),
            MessageType::RunCommand => one(MessageType::RunCompletionNotification, CompletedBy::Attempt, Kept::Nothing),
            MessageType::AttachInvocationCommand => one(MessageType::AttachInvocationCompletionNotification, CompletedBy::Outcome, Kept::Nothing),
            MessageType::GetInvocationOutputCommand => one(MessageType::GetInvocationOutputCompletionNotification, CompletedBy::VoidOrOutcome, Kept::Nothing),
            MessageType::CompleteAwakeableCommand => nothing(Kept::Nothing),
            _ => None,
        }
    };
}

impl CommandFacts {
    /// What the command of this type asks for, what completes it and what is kept of it, if this is the type of a command
    /// with a name. A lazy and an eager read, which are one `CommandType`, differ in this.
    pub fn of(ty: MessageType) -> Option<CommandFacts>
        ensures { result ≡ facts_of ty }
    {
        facts_in_table!(ty)
    }
}
