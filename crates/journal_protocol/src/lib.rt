//! The journal protocol, in one crate to name: what is on the stream between a runtime and an invocation, how records are read
//! and spelled, which errors there are, which commands are the same, and when what is awaited has come.
//!
//! Each item is made in a crate of its own below this one and named here. The records are in `messages`, for the record of a
//! value, of a header and of a failure has the same name as the type that a handler sees.
#![tactic(auto)]

pub mod laws;
pub mod messages;

// Values that handlers see.
pub use journal_model::{
    Failure, Header, NonEmptyValue, Notification, NotificationId, NotificationResult,
    PayloadOptions, TerminalFailure, Value,
};
pub use sequence::Sequence;

// The stream: types, headers, items and frames, versions, and the headers of a request.
pub use protocol_stream::{
    CommandFacts, CommandType, CompletedBy, Completion, Completions, ContentTypeError, Decoder,
    DecodingError, EncodingError, Feature, FirstItem, HEADER_LEN, HeaderMap, Kept, MessageHeader,
    MessageType, NotificationField, RawMessage, UnknownMessageType, Version, begin_frame,
    first_item, frame_of, payload_of_frame, put_frame, to_arrived_failure_record, to_failure,
    to_failure_record, to_header, to_header_record, to_header_records, to_headers,
    to_non_empty_value, to_output_result, to_terminal_failure, write_message,
};

// Whole messages: which record a payload is, and which frame a record is written as.
pub use protocol_messages::{
    Encoder, PlainMessage, RawMessageExt, RestateEncodableMessage, RestateMessage, TakeError,
    encode_record, is_failure, to_awakeable_result, to_promise_completion, to_proposed_result,
    to_signal_result, to_suspension_v6, to_taken_failure, to_value,
};

// Which commands are the same, and how they differ.
pub use protocol_differences::{
    CommandMessageHeaderDiff, CommandMismatchError, CommandRelationship,
};
pub use protocol_equality::{
    CommandMessageHeaderEq, NamedCommandMessage, Same, SameBesidesPayload,
};

// Errors.
pub use protocol_errors::{
    AwaitedId, BadEagerStateKeyError, BadProposeRunCompletionAck, ClosedError, CommandMetadata,
    CommandTypeMismatchError, DefaultErrorFormatter, EMPTY_GET_EAGER_STATE,
    EMPTY_GET_EAGER_STATE_KEYS, EMPTY_GET_STATE_EPHEMERAL_NOTIFICATION, EMPTY_IDEMPOTENCY_KEY,
    EMPTY_LIMIT_KEY, EMPTY_SCOPE, EPHEMERAL_COMMAND_DURING_REPLAY,
    EphemeralStateGetWithClosedInput, Error, ErrorBehavior, ErrorFormatter, FixedError,
    INPUT_CLOSED_WHILE_WAITING_ENTRIES, INPUT_CLOSED_WHILE_WAITING_EPHEMERAL_NOTIFICATIONS,
    InvocationErrorCode, KNOWN_ENTRIES_IS_ZERO, MISSING_CONTENT_TYPE, NotificationMetadata,
    OutOfBoundsDuration, SUSPENDED, UNEXPECTED_ENTRY_MESSAGE, UNEXPECTED_INPUT_MESSAGE,
    UnavailableEntryError, UncompletedDoProgressDuringReplay, UnexpectedStateError,
    UnsupportedFeatureForNegotiatedVersion, WithInvocationErrorCode, codes, to_error,
    write_mismatch,
};

// Whether what is awaited has come.
pub use protocol_trees::{
    AwaitState, AwaitTree, AwaitTreeShape, NotificationIdRef, await_state, is_awake,
};

// What records are made of: fields, the table of all of them, and how they are printed.
pub use protocol_table::table;
pub use protocol_types as shown;
pub use protocol_wire as wire;
