//! Rows of errors with types of their own: the code and the text of each.
//!
//! - `unavailable TYPE`, `mismatch PLACE EXPECTED FOUND`: by the numbers of types.
//! - `state EVENT`, `closed EVENT`: what was called in a state that does not take it, and behind the end.
//! - `feature CURRENT REQUIRED`: what a later version has.
//! - `duration`: a moment that 64 bits do not hold.
//! - `acknowledged ID`, `ephemeral KEY`: of runs, and of reads that are not recorded.
//! - `uncompleted`: an await of three ids, of which the awakeable is known.
//! - `named NAME PLACE TYPE`, `unnamed PLACE TYPE`, `awakeable ID`, `cancelled`: how commands and notifications are told.
//! - `related TEXT NAME PLACE TYPE`: an error about a command.
//! - `last`, `next NUMBER`: which command an error is about, and whether it is the last one.
use crate::operands::{message_type, number, shown, version};
use bytes::ByteStr;
use journal_protocol::{
    AwaitedId, BadProposeRunCompletionAck, ClosedError, CommandMetadata, CommandRelationship,
    CommandType, CommandTypeMismatchError, EphemeralStateGetWithClosedInput, Error,
    NotificationMetadata, OutOfBoundsDuration, UnavailableEntryError,
    UncompletedDoProgressDuringReplay, UnexpectedStateError,
    UnsupportedFeatureForNegotiatedVersion, WithInvocationErrorCode, to_error,
};
use std::alloc::Global;
use std::fmt;

/// The code and the text of an error.
pub fn error<E: WithInvocationErrorCode + fmt::Display + Drop>(
    alloc: Global,
    error: E,
) -> Option<String> {
    let made = to_error(alloc, &error);
    drop(error);
    let made = made.ok()?;
    let (code, message) = (made.code(), made.message());
    format!(in alloc; "{code} {message:?}").ok()
}

fn owned(alloc: Global, text: &str) -> Option<ByteStr> {
    ByteStr::copy_from_str(alloc, text).ok()
}

fn duration(alloc: Global) -> Option<String> {
    match u64::try_from(u128::MAX) {
        Ok(_) => None,
        Err(too_long) => error(alloc, OutOfBoundsDuration("sleep", too_long)),
    }
}

/// A signal's name, a signal and a completion.
fn awaited(alloc: Global) -> Option<Vec<AwaitedId>> {
    let mut awaited = Vec::new(alloc);
    for id in [
        AwaitedId::SignalName(ByteStr::from_static("x")),
        AwaitedId::SignalId(17),
        AwaitedId::CompletionId(3),
    ] {
        awaited.push(id).ok()?;
    }
    Some(awaited)
}

fn uncompleted(alloc: Global) -> Option<String> {
    let awaited = awaited(alloc)?;
    let awakeable = NotificationMetadata::Awakeable(ByteStr::from_static("sign_1x"));
    let mut known = Vec::new(alloc);
    known.push((AwaitedId::SignalId(17), awakeable)).ok()?;
    error(
        alloc,
        UncompletedDoProgressDuringReplay::new(awaited, known),
    )
}

fn related(alloc: Global, text: &str, command: CommandMetadata) -> Option<String> {
    let error = Error::internal(owned(alloc, text)?).with_related_command_metadata(command);
    let shown = format!(in alloc; "{error}");
    drop(error);
    let shown = shown.ok()?;
    let shown = shown.as_str();
    format!(in alloc; "{shown:?}").ok()
}

fn relationship(alloc: Global, of: CommandRelationship) -> Option<String> {
    let is_last = of == CommandRelationship::Last;
    let told = format!(in alloc; "{of:?} {is_last}");
    drop(of);
    told.ok()
}

fn next(alloc: Global, ty: &str) -> Option<String> {
    let ty = CommandType::try_from(message_type(ty)?).ok()?;
    relationship(alloc, CommandRelationship::Next { ty, name: None })
}

fn named_command(alloc: Global, name: &str, place: &str, ty: &str) -> Option<CommandMetadata> {
    let (place, ty) = (number(place)?, message_type(ty)?);
    Some(CommandMetadata::new_named(owned(alloc, name)?, place, ty))
}

/// Rows without an operand.
fn answer_alone(alloc: Global, operation: &str) -> Option<String> {
    match operation {
        "duration" => duration(alloc),
        "uncompleted" => uncompleted(alloc),
        "cancelled" => shown(alloc, NotificationMetadata::Cancellation),
        "last" => relationship(alloc, CommandRelationship::Last),
        _ => None,
    }
}

/// Rows of one text.
fn answer_about_text(alloc: Global, operation: &str, text: ByteStr) -> Option<String> {
    match operation {
        "state" => error(alloc, UnexpectedStateError::new("WaitingStart", text)),
        "closed" => error(alloc, ClosedError::new(text)),
        "ephemeral" => error(alloc, EphemeralStateGetWithClosedInput::new(text)),
        "awakeable" => shown(alloc, NotificationMetadata::Awakeable(text)),
        _ => {
            drop(text);
            None
        }
    }
}

/// Rows of one operand.
fn answer_about(alloc: Global, operation: &str, operand: &str) -> Option<String> {
    match operation {
        "unavailable" => error(alloc, UnavailableEntryError::new(message_type(operand)?)),
        "acknowledged" => error(alloc, BadProposeRunCompletionAck::new(number(operand)?)),
        "next" => next(alloc, operand),
        _ => answer_about_text(alloc, operation, owned(alloc, operand)?),
    }
}

/// Rows of two operands.
fn answer_about_two(alloc: Global, operation: &str, one: &str, two: &str) -> Option<String> {
    match operation {
        "feature" => {
            let (current, required) = (version(one)?, version(two)?);
            let feature = "terminal error metadata";
            error(
                alloc,
                UnsupportedFeatureForNegotiatedVersion::new(feature, current, required),
            )
        }
        "unnamed" => {
            let command = CommandMetadata::new(number(one)?, message_type(two)?);
            shown(alloc, NotificationMetadata::RelatedToCommand(command))
        }
        _ => None,
    }
}

/// Rows of three operands, of which the last is the number of a type.
fn answer_about_three(
    alloc: Global,
    operation: &str,
    one: &str,
    two: &str,
    ty: &str,
) -> Option<String> {
    match operation {
        "mismatch" => {
            let (expected, found) = (message_type(two)?, message_type(ty)?);
            let place: i64 = one.parse().ok()?;
            error(alloc, CommandTypeMismatchError::new(place, expected, found))
        }
        "named" => shown(alloc, named_command(alloc, one, two, ty)?),
        _ => None,
    }
}

pub fn answer(alloc: Global, operation: &str, operands: &[&str]) -> Option<String> {
    match operands {
        [] => answer_alone(alloc, operation),
        [one] => answer_about(alloc, operation, *one),
        [one, two] => answer_about_two(alloc, operation, *one, *two),
        [one, two, ty] => answer_about_three(alloc, operation, *one, *two, *ty),
        [text, name, place, ty] if operation == "related" => {
            related(alloc, *text, named_command(alloc, *name, *place, *ty)?)
        }
        _ => None,
    }
}
