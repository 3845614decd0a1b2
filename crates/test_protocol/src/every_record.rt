//! Each record type of the table with the record that it is.
use crate::records::about;
use journal_protocol::messages;
use journal_protocol::wire::RecordType;
use std::alloc::Global;

// The one list of record types and of the records that they are. `$then` is given what it is to be used for, and then the rows.
macro_rules! with_records {
    ($then:ident ($($argument:expr),*)) => {
        $then! { ($($argument),*);
            AttachInvocationCommand AttachInvocationCommandMessage,
            AwaitingOn AwaitingOnMessage,
            CallCommand CallCommandMessage,
            ClearAllStateCommand ClearAllStateCommandMessage,
            ClearStateCommand ClearStateCommandMessage,
            CompleteAwakeableCommand CompleteAwakeableCommandMessage,
            CompletePromiseCommand CompletePromiseCommandMessage,
            End EndMessage,
            Error ErrorMessage,
            Failure Failure,
            FailureMetadata FailureMetadata,
            Future Future,
            GetEagerStateCommand GetEagerStateCommandMessage,
            GetEagerStateKeysCommand GetEagerStateKeysCommandMessage,
            GetInvocationOutputCommand GetInvocationOutputCommandMessage,
            GetLazyStateCommand GetLazyStateCommandMessage,
            GetLazyStateKeysCommand GetLazyStateKeysCommandMessage,
            GetPromiseCommand GetPromiseCommandMessage,
            GetStateEphemeralCommand GetStateEphemeralCommandMessage,
            GetStateEphemeralNotification GetStateEphemeralNotificationMessage,
            Header Header,
            IdempotentRequestTarget IdempotentRequestTarget,
            InputCommand InputCommandMessage,
            Notification NotificationMessage,
            OneWayCallCommand OneWayCallCommandMessage,
            OutputCommand OutputCommandMessage,
            PeekPromiseCommand PeekPromiseCommandMessage,
            ProposeRunCompletion ProposeRunCompletionMessage,
            ProposeRunCompletionAck ProposeRunCompletionAckMessage,
            RunCommand RunCommandMessage,
            SendSignalCommand SendSignalCommandMessage,
            SetStateCommand SetStateCommandMessage,
            SleepCommand SleepCommandMessage,
            Start StartMessage,
            StateEntry StateEntry,
            StateKeys StateKeys,
            Suspension SuspensionMessage,
            SuspensionV6 SuspensionMessageV6,
            Value Value,
            Void Void,
            WorkflowTarget WorkflowTarget
        }
    };
}

macro_rules! types_in_list {
    ((); $($name:ident $record:ident),*) => {
        [$(RecordType::$name),*]
    };
}

macro_rules! about_in_list {
    (($of:expr, $alloc:expr, $payload:expr, $more:expr); $($name:ident $record:ident),*) => {
        match $of {
            $(RecordType::$name => about::<messages::$record>($alloc, $payload, $more),)*
        }
    };
}

/// Every record type.
pub const EVERY_TYPE: [RecordType; 41] = with_records!(types_in_list());

/// The record type of this name.
pub fn type_named(alloc: Global, name: &str) -> Option<RecordType> {
    for of in EVERY_TYPE {
        let shown = format!(in alloc; "{of:?}").ok()?;
        if shown.as_str() == name {
            return Some(of);
        }
    }
    None
}

/// Tells the record of this type that a payload is, with more merged in where there is more.
pub fn about_type(
    alloc: Global,
    of: RecordType,
    payload: &str,
    more: Option<&str>,
) -> Option<String> {
    with_records!(about_in_list(of, alloc, payload, more))
}
