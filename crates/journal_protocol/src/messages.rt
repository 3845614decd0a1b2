//! The records: what the payload of each message is, and what these hold.
pub use protocol_calls::{
    AttachInvocationCommandMessage, AttachInvocationCommandTarget, CallCommandMessage,
    CompleteAwakeableCommandMessage, CompleteAwakeableCommandResult,
    GetInvocationOutputCommandMessage, GetInvocationOutputCommandTarget, IdempotentRequestTarget,
    OneWayCallCommandMessage, SendSignalCommandMessage, SendSignalCommandResult,
    SendSignalCommandSignalId, WorkflowTarget,
};
pub use protocol_commands::{
    ClearAllStateCommandMessage, ClearStateCommandMessage, CompletePromiseCommandCompletion,
    CompletePromiseCommandMessage, GetEagerStateCommandMessage, GetEagerStateCommandResult,
    GetEagerStateKeysCommandMessage, GetLazyStateCommandMessage, GetLazyStateKeysCommandMessage,
    GetPromiseCommandMessage, PeekPromiseCommandMessage, RunCommandMessage, SetStateCommandMessage,
};
pub use protocol_controls::{
    ErrorMessage, GetStateEphemeralCommandMessage, GetStateEphemeralNotificationMessage,
    GetStateEphemeralNotificationResult, NotificationMessage, NotificationMessageId,
    NotificationMessageResult, ProposeRunCompletionAckMessage, ProposeRunCompletionMessage,
    ProposeRunCompletionResult,
};
pub use protocol_records::{
    AwaitingOnMessage, CombinatorType, EndMessage, Failure, FailureMetadata, Future, Header,
    InputCommandMessage, OutputCommandMessage, OutputCommandResult, SleepCommandMessage,
    StartMessage, StateEntry, StateKeys, SuspensionMessage, SuspensionMessageV6, Value, Void,
};
