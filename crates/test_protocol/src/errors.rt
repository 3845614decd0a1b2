//! Rows of commands, versions and codes as errors tell them.
//!
//! - `command NUMBER`: the command of the type of this number, by name and in words.
//! - `cancellation`: the command that no type is, and the type that it is written as.
//! - `content_type TEXT`: the version that it names, or whose it is.
//! - `version NUMBER`: a version with its content type, and whether it is at least version 7, and greater.
//! - `supported`: the first and the last version that is spoken.
//! - `code NAME`, `code_of NUMBER`: the number of a code.
//! - `fixed NAME`: an error whose text never changes: its code, whether it is a suspension, its text.
//! - `request_header NAME`: the header with this name, of a request that has two.
use crate::operands::{message_type, number, shown, text, told, version};
use bytes::ByteStr;
use journal_protocol::{
    CommandType, ContentTypeError, EMPTY_GET_EAGER_STATE, EMPTY_GET_EAGER_STATE_KEYS,
    EMPTY_GET_STATE_EPHEMERAL_NOTIFICATION, EMPTY_IDEMPOTENCY_KEY, EMPTY_LIMIT_KEY, EMPTY_SCOPE,
    EPHEMERAL_COMMAND_DURING_REPLAY, Error, FixedError, HeaderMap,
    INPUT_CLOSED_WHILE_WAITING_ENTRIES, INPUT_CLOSED_WHILE_WAITING_EPHEMERAL_NOTIFICATIONS,
    InvocationErrorCode, KNOWN_ENTRIES_IS_ZERO, MISSING_CONTENT_TYPE, MessageType, SUSPENDED,
    UNEXPECTED_ENTRY_MESSAGE, UNEXPECTED_INPUT_MESSAGE, Version, codes,
};
use std::alloc::Global;

const CODES: [(&str, InvocationErrorCode); 9] = [
    ("BAD_REQUEST", codes::BAD_REQUEST),
    ("UNSUPPORTED_MEDIA_TYPE", codes::UNSUPPORTED_MEDIA_TYPE),
    ("INTERNAL", codes::INTERNAL),
    ("JOURNAL_MISMATCH", codes::JOURNAL_MISMATCH),
    ("PROTOCOL_VIOLATION", codes::PROTOCOL_VIOLATION),
    (
        "AWAITING_TWO_ASYNC_RESULTS",
        codes::AWAITING_TWO_ASYNC_RESULTS,
    ),
    ("UNSUPPORTED_FEATURE", codes::UNSUPPORTED_FEATURE),
    ("CLOSED", codes::CLOSED),
    ("SUSPENDED", codes::SUSPENDED),
];

const FIXED: [(&str, FixedError); 14] = [
    ("MISSING_CONTENT_TYPE", MISSING_CONTENT_TYPE),
    ("UNEXPECTED_INPUT_MESSAGE", UNEXPECTED_INPUT_MESSAGE),
    ("KNOWN_ENTRIES_IS_ZERO", KNOWN_ENTRIES_IS_ZERO),
    ("UNEXPECTED_ENTRY_MESSAGE", UNEXPECTED_ENTRY_MESSAGE),
    (
        "INPUT_CLOSED_WHILE_WAITING_ENTRIES",
        INPUT_CLOSED_WHILE_WAITING_ENTRIES,
    ),
    ("EMPTY_IDEMPOTENCY_KEY", EMPTY_IDEMPOTENCY_KEY),
    ("EMPTY_LIMIT_KEY", EMPTY_LIMIT_KEY),
    ("EMPTY_SCOPE", EMPTY_SCOPE),
    ("SUSPENDED", SUSPENDED),
    ("EMPTY_GET_EAGER_STATE", EMPTY_GET_EAGER_STATE),
    ("EMPTY_GET_EAGER_STATE_KEYS", EMPTY_GET_EAGER_STATE_KEYS),
    (
        "EMPTY_GET_STATE_EPHEMERAL_NOTIFICATION",
        EMPTY_GET_STATE_EPHEMERAL_NOTIFICATION,
    ),
    (
        "INPUT_CLOSED_WHILE_WAITING_EPHEMERAL_NOTIFICATIONS",
        INPUT_CLOSED_WHILE_WAITING_EPHEMERAL_NOTIFICATIONS,
    ),
    (
        "EPHEMERAL_COMMAND_DURING_REPLAY",
        EPHEMERAL_COMMAND_DURING_REPLAY,
    ),
];

fn command(alloc: Global, ty: &str) -> Option<String> {
    match CommandType::try_from(message_type(ty)?) {
        Ok(command) => format!(in alloc; "{command:?}: {command}").ok(),
        Err(ty) => format!(in alloc; "none: {ty}").ok(),
    }
}

fn cancellation(alloc: Global) -> Option<String> {
    let command = CommandType::CancelInvocation;
    let ty = MessageType::from(command);
    format!(in alloc; "{command:?}: {command}, as {ty}").ok()
}

fn content_type(alloc: Global, content_type: &str) -> Option<String> {
    let content_type = ByteStr::copy_from_str(alloc, text(content_type)).ok()?;
    match Version::try_from(content_type) {
        Ok(version) => format!(in alloc; "{version:?}").ok(),
        Err(ContentTypeError::RestateContentType(kept)) => {
            format!(in alloc; "restate {kept:?}").ok()
        }
        Err(ContentTypeError::OtherContentType(kept)) => format!(in alloc; "other {kept:?}").ok(),
    }
}

fn version_told(alloc: Global, of: &str) -> Option<String> {
    let version = version(of)?;
    let is_at_least = version.is_at_least(Version::V7);
    let is_greater = version > Version::V7;
    format!(in alloc; "{version:?} {version} {is_at_least} {is_greater}").ok()
}

fn supported(alloc: Global) -> Option<String> {
    let first = Version::minimum_supported_version();
    let last = Version::maximum_supported_version();
    format!(in alloc; "{first:?} {last:?}").ok()
}

fn code(alloc: Global, wanted: &str) -> Option<String> {
    for (name, code) in CODES {
        if name == wanted {
            let number = code.code();
            return format!(in alloc; "{number} {code:?} {code}").ok();
        }
    }
    None
}

fn fixed_named(wanted: &str) -> Option<FixedError> {
    for (name, fixed) in FIXED {
        if name == wanted {
            return Some(fixed);
        }
    }
    None
}

fn fixed(alloc: Global, name: &str) -> Option<String> {
    let fixed = fixed_named(name)?;
    let error = Error::from(fixed).with_should_pause();
    let (code, is_suspended) = (error.code(), error.is_suspended_error());
    let text = format!(in alloc; "{fixed:?} {code} {is_suspended} {error}");
    drop(error);
    text.ok()
}

/// Two headers of which the names differ in case alone.
fn two_headers(alloc: Global) -> Option<Vec<(ByteStr, ByteStr)>> {
    let mut headers = Vec::new(alloc);
    for (name, value) in [("Content-Type", "first"), ("content-type", "second")] {
        headers
            .push((ByteStr::from_static(name), ByteStr::from_static(value)))
            .ok()?;
    }
    Some(headers)
}

fn request_header(alloc: Global, name: &str) -> Option<String> {
    let headers = two_headers(alloc)?;
    let found = headers.extract(name).ok()?;
    told(alloc, found.unwrap_or("none"))
}

/// Rows of one operand.
fn answer_about(alloc: Global, operation: &str, operand: &str) -> Option<String> {
    match operation {
        "command" => command(alloc, operand),
        "content_type" => content_type(alloc, operand),
        "version" => version_told(alloc, operand),
        "code" => code(alloc, operand),
        "code_of" => shown(alloc, InvocationErrorCode::from(number(operand)?)),
        "fixed" => fixed(alloc, operand),
        "request_header" => request_header(alloc, operand),
        _ => None,
    }
}

pub fn answer(alloc: Global, operation: &str, operands: &[&str]) -> Option<String> {
    match operands {
        [] if operation == "cancellation" => cancellation(alloc),
        [] if operation == "supported" => supported(alloc),
        [operand] => answer_about(alloc, operation, *operand),
        _ => None,
    }
}
