// What an attempt fails with, and the frame that tells it.
ghost use Rattle.std.specs.Prelude.{◌≡◌, IfOk, option_map, option_copied};
ghost use Rattle.protocol_types.specs.Version.{version_number};
ghost use Rattle.vm_start.specs.Failure.{asked_behavior, failed_with, name_told, told_name, told_delay, behavior_number, told_error};

use bytes::ByteStr;
use protocol_controls::ErrorMessage;
use protocol_errors::{CommandMetadata, Error, ErrorBehavior};
use protocol_types::{Feature, Version};
use std::alloc::{AllocError, Global};
use std::time::Duration;
use vm_types::JournalMismatchRetryBehavior;

fn asked_behavior(asked: JournalMismatchRetryBehavior) -> ErrorBehavior
    ensures { result ≡ asked_behavior asked }
{
    match asked {
        JournalMismatchRetryBehavior::Pause => ErrorBehavior::Pause,
        JournalMismatchRetryBehavior::FailTerminally => ErrorBehavior::Fail,
        JournalMismatchRetryBehavior::FollowRetryPolicy => ErrorBehavior::Retry,
    }
}

/// What an attempt fails with where this error came up. From version 7 on, a journal that does not match takes the behaviour
/// that the option asks for, whatever it had.
pub fn fail_with(version: Version, asked: JournalMismatchRetryBehavior, error: Error) -> Error
    ensures { result ≡ failed_with (version_number version) asked error }
{
    if Feature::ErrorBehavior.is_in(version.number()) {
        return error.with_mismatch_behavior(asked_behavior(asked));
    }
    error
}

// A name that says something.
fn name_told(name: &Option<ByteStr>) -> Result<Option<ByteStr>, AllocError>
    ensures { IfOk result (λ told. told ≡ name_told name.now) }
{
    match name {
        Some(name) if !name.is_empty() => Ok(Some(name.clone()?)),
        _ => Ok(None),
    }
}

// The name of a command, where it has one.
fn told_name(command: Option<&CommandMetadata>) -> Result<Option<ByteStr>, AllocError>
    ensures { IfOk result (λ name. name ≡ told_name (option_copied command.entry)) }
{
    match command {
        Some(command) => name_told(&command.name),
        None => Ok(None),
    }
}

// A delay in whole milliseconds; past 64 bits it is the greatest.
fn told_delay(delay: Duration) -> u64
    ensures { result ≡ told_delay delay }
{
    u64::try_from(delay.as_millis()).unwrap_or(u64::MAX)
}

fn behavior_number(behavior: ErrorBehavior) -> u32
    ensures { result ≡ behavior_number behavior }
{
    match behavior {
        ErrorBehavior::Retry => 0,
        ErrorBehavior::Pause => 1,
        ErrorBehavior::Fail => 2,
    }
}

/// The frame's record of an error.
pub fn error_message(alloc: Global, error: &Error) -> Result<ErrorMessage, AllocError>
    ensures { IfOk result (λ message. message ≡ told_error error.now) }
{
    let command = error.related_command();
    Ok(ErrorMessage {
        code: u32::from(error.code()),
        message: ByteStr::copy_from_str(alloc, error.message())?,
        related_command_index: command.map(|command| command.index),
        related_command_name: told_name(command)?,
        related_command_type: command.map(|command| u32::from(u16::from(command.ty))),
        next_retry_delay: error.next_retry_delay().map(|delay| told_delay(delay)),
        behavior: behavior_number(error.behavior()),
    })
}
