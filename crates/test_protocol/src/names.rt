//! The items of the specification that `journal_protocol` passes on, each under its own name. What stands here names them and calls
//! none: where this crate is checked, they are there.
use bytes::{ByteStr, Bytes};
use std::fmt;
use test_rows::named;

/// The records.
pub mod records {
    pub use journal_protocol::messages::{
        AttachInvocationCommandMessage, AwaitingOnMessage, CallCommandMessage,
        ClearAllStateCommandMessage, ClearStateCommandMessage, CompleteAwakeableCommandMessage,
        CompletePromiseCommandMessage, EndMessage, ErrorMessage, Failure, FailureMetadata, Future,
        GetEagerStateCommandMessage, GetEagerStateKeysCommandMessage,
        GetInvocationOutputCommandMessage, GetLazyStateCommandMessage,
        GetLazyStateKeysCommandMessage, GetPromiseCommandMessage, GetStateEphemeralCommandMessage,
        GetStateEphemeralNotificationMessage, Header, IdempotentRequestTarget, InputCommandMessage,
        NotificationMessage, OneWayCallCommandMessage, OutputCommandMessage,
        PeekPromiseCommandMessage, ProposeRunCompletionAckMessage, ProposeRunCompletionMessage,
        RunCommandMessage, SendSignalCommandMessage, SetStateCommandMessage, SleepCommandMessage,
        StartMessage, StateEntry, StateKeys, SuspensionMessage, SuspensionMessageV6, Value, Void,
        WorkflowTarget,
    };
}

/// What handlers see, and conversions between that and the records.
pub mod values {
    pub use journal_protocol::{
        Header, NonEmptyValue, Notification, NotificationId, NotificationResult, PayloadOptions,
        TerminalFailure, Value, is_failure, to_awakeable_result, to_failure, to_failure_record,
        to_header, to_header_record, to_non_empty_value, to_output_result, to_promise_completion,
        to_proposed_result, to_signal_result, to_taken_failure, to_terminal_failure, to_value,
    };
}

// Errors, types, headers, items, versions, headers of a request, and trees.
pub use journal_protocol::{
    AwaitState, AwaitTree, AwaitTreeShape, BadEagerStateKeyError, BadProposeRunCompletionAck,
    ClosedError, CommandMessageHeaderDiff, CommandMessageHeaderEq, CommandMetadata,
    CommandMismatchError, CommandRelationship, CommandType, CommandTypeMismatchError,
    ContentTypeError, Decoder, DecodingError, DefaultErrorFormatter, EMPTY_GET_EAGER_STATE,
    EMPTY_GET_EAGER_STATE_KEYS, EMPTY_GET_STATE_EPHEMERAL_NOTIFICATION, EMPTY_IDEMPOTENCY_KEY,
    EMPTY_LIMIT_KEY, EMPTY_SCOPE, EPHEMERAL_COMMAND_DURING_REPLAY, Encoder,
    EphemeralStateGetWithClosedInput, Error, ErrorFormatter, HeaderMap,
    INPUT_CLOSED_WHILE_WAITING_ENTRIES, INPUT_CLOSED_WHILE_WAITING_EPHEMERAL_NOTIFICATIONS,
    InvocationErrorCode, KNOWN_ENTRIES_IS_ZERO, MISSING_CONTENT_TYPE, MessageHeader, MessageType,
    NamedCommandMessage, NotificationMetadata, OutOfBoundsDuration, RawMessage, RawMessageExt,
    RestateEncodableMessage, RestateMessage, SUSPENDED, UNEXPECTED_ENTRY_MESSAGE,
    UNEXPECTED_INPUT_MESSAGE, UnavailableEntryError, UncompletedDoProgressDuringReplay,
    UnexpectedStateError, UnknownMessageType, UnsupportedFeatureForNegotiatedVersion, Version,
    await_state, codes, is_awake,
};

/// What is called of errors, codes, values, types, headers, items and versions.
pub fn name_items() {
    named!(Error:
        new internal code message with_next_retry_delay_override with_should_pause
        with_related_command_metadata is_suspended_error
    );
    named!(InvocationErrorCode: new code);
    named!(InvocationErrorCode as From<u16>: from);
    named!(InvocationErrorCode as From<u32>: from);
    named!(u16 as From<InvocationErrorCode>: from);
    named!(u32 as From<InvocationErrorCode>: from);
    named!(values::Value as From<Bytes>: from);
    named!(values::Value as From<values::NonEmptyValue>: from);
    named!(values::PayloadOptions: stable_serialization unstable_serialization);
    named!(MessageType: is_command is_notification allows_ack);
    named!(MessageType as From<CommandType>: from);
    named!(u16 as From<MessageType>: from);
    named!(MessageType as TryFrom<u16>: try_from);
    named!(CommandType as TryFrom<MessageType>: try_from);
    named!(MessageHeader: new new_with_requested_ack message_type message_length requested_ack);
    named!(u64 as From<MessageHeader>: from);
    named!(MessageHeader as TryFrom<u64>: try_from);
    named!(Decoder: new push consume_next);
    named!(RawMessage: ty header);
    named!(RawMessage as RawMessageExt: decode_as_notification);
    named!(Encoder: new);
    named!(Version: content_type minimum_supported_version maximum_supported_version);
    named!(Version as TryFrom<ByteStr>: try_from);
}

/// What is called of any message, of any command and of two that differ, of a host's words and headers, and of any tree.
pub fn name_by_traits<
    M: RestateMessage + RestateEncodableMessage,
    C: NamedCommandMessage + CommandMessageHeaderDiff,
    F: ErrorFormatter,
    H: HeaderMap,
    W: fmt::Write,
    T: AwaitTree,
    L: Fn(T::Leaf) -> AwaitState,
>() {
    named!(M as RestateMessage: ty decode merge encoded_len);
    named!(M as RestateEncodableMessage: encode);
    let _ = <RawMessage as RawMessageExt>::decode_to::<M>;
    let _ = Encoder::encode::<M>;
    named!(C as NamedCommandMessage: name);
    named!(C as CommandMessageHeaderEq: header_eq);
    let _ = <C as CommandMessageHeaderDiff>::write_diff::<W>;
    let _ = <F as ErrorFormatter>::display_closed_error::<W>;
    named!(H as HeaderMap: extract);
    named!(T as AwaitTree: shape leaf_count leaf child_count child);
    let _ = await_state::<T, L>;
    let _ = is_awake::<T, L>;
}
