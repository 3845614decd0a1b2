// Taking the recorded read of an object's state: its kind, and what was known, are the record's.
ghost use Rattle.std.specs.Prelude.{◌≡◌, List, Some, Ok, drop};
ghost use Rattle.journal_model.specs.Request.{Request};
ghost use Rattle.protocol_messages.specs.Decodings.{DecodesTo, HasItsType};
ghost use Rattle.protocol_stream.specs.declared.decoder.RawMessage.{RawMessage};
ghost use Rattle.vm_commands.specs.NextCommand.{next_of};
ghost use Rattle.vm_commands.specs.StateReads.{tells_type, ReadsAs, MatchesRead};

use crate::pop::{compare, take_first, take_next, unread};
use crate::{EagerRead, ReplayError};
use protocol_errors::{CommandTypeMismatchError, UnavailableEntryError};
use protocol_messages::{RawMessageExt, RestateMessage};
use protocol_stream::{DecodingError, RawMessage};
use std::alloc::Global;
use std::collections::VecDeque;

/// How a recorded read was answered.
#[derive(Debug, Drop)]
pub enum StateRead<K> {
    /// By a completion that is still to come.
    Lazy,
    /// By this, which was known.
    Eager(K),
}

/// Why the next recorded command is not the read that a call makes.
#[derive(Debug, Drop)]
pub enum StateReadError<L, E> {
    /// It is no read of this kind.
    OtherType(CommandTypeMismatchError),
    /// It is none whose answer is to come, or none is left.
    Lazy(ReplayError<L>),
    /// It is none whose answer was known.
    Eager(ReplayError<E>),
    /// Its answer was known, and is not there: the machine tells `EMPTY_GET_EAGER_STATE`, and of keys `EMPTY_GET_EAGER_STATE_KEYS`.
    Empty,
}

// The read whose answer was known, where it asks what the call asks. What was known is taken out first, so that it need not be copied.
fn take_eager<E: EagerRead>(
    alloc: Global,
    command_index: i64,
    read: E,
    expected: E::Lazy,
    ignore_payload_equality: bool,
) -> Result<StateRead<E::Known>, StateReadError<E::Lazy, E>>
    ensures { (m : RawMessage) → DecodesTo E.record_type E.of command_index m (Ok read) → ReadsAs E.record_type E.Lazy.record_type E.of E.Lazy.of E.erased E.Lazy.erased E.known E.bare E.asked command_index ignore_payload_equality expected (Some m) result }
{
    let mut recorded = read;
    let known = recorded.take_known();
    match compare(
        alloc,
        command_index,
        recorded,
        E::asking(expected),
        ignore_payload_equality,
    ) {
        Ok(recorded) => {
            drop(recorded);
            match known {
                Some(known) => Ok(StateRead::Eager(known)),
                None => Err(StateReadError::Empty),
            }
        }
        Err(error) => {
            drop(known);
            Err(StateReadError::Eager(error))
        }
    }
}

// The read whose answer is to come, where the message is not of the other's type.
fn take_lazy<E: EagerRead>(
    alloc: Global,
    message: RawMessage,
    command_index: i64,
    expected: E::Lazy,
    ignore_payload_equality: bool,
) -> Result<StateRead<E::Known>, StateReadError<E::Lazy, E>>
    ensures { (HasItsType E.record_type message → ⊥) → ReadsAs E.record_type E.Lazy.record_type E.of E.Lazy.of E.erased E.Lazy.erased E.known E.bare E.asked command_index ignore_payload_equality expected (Some message) result }
{
    match take_next(
        alloc,
        Some(message),
        command_index,
        expected,
        ignore_payload_equality,
    ) {
        Ok(recorded) => {
            drop(recorded);
            Ok(StateRead::Lazy)
        }
        Err(
            ReplayError::Decoding(
                DecodingError::UnexpectedMessageType {
                    expected,
                    actual,
                    ..
                },
            ),
        ) => Err(StateReadError::OtherType(CommandTypeMismatchError::new(
            command_index,
            actual,
            expected,
        ))),
        Err(error) => Err(StateReadError::Lazy(error)),
    }
}

// Whether a message was not read because it is of another type.
fn is_of_another_type(error: &DecodingError) -> bool
    ensures { result ≡ tells_type error.now }
{
    matches!(error, DecodingError::UnexpectedMessageType { .. })
}

// The message as the read that a call makes, of either kind.
fn take_read<E: EagerRead>(
    alloc: Global,
    next: Option<RawMessage>,
    command_index: i64,
    expected: E::Lazy,
    ignore_payload_equality: bool,
) -> Result<StateRead<E::Known>, StateReadError<E::Lazy, E>>
    ensures { ReadsAs E.record_type E.Lazy.record_type E.of E.Lazy.of E.erased E.Lazy.erased E.known E.bare E.asked command_index ignore_payload_equality expected next result }
{
    let Some(message) = next else {
        drop(expected);
        return Err(StateReadError::Lazy(ReplayError::Unavailable(UnavailableEntryError::new(
            E::Lazy::ty(),
        ))));
    };
    match message.decode_to::<E>(alloc, command_index) {
        Ok(recorded) => {
            drop(message);
            take_eager(
                alloc,
                command_index,
                recorded,
                expected,
                ignore_payload_equality,
            )
        }
        Err(error) => {
            if is_of_another_type(&error) {
                drop(error);
                return take_lazy(
                    alloc,
                    message,
                    command_index,
                    expected,
                    ignore_payload_equality,
                );
            }
            drop(message);
            drop(expected);
            Err(StateReadError::Eager(unread(error)))
        }
    }
}

/// Takes the next recorded command, which has to be the read that a call makes, of either kind: `expected` is the read whose
/// answer is to come.
///
/// The first message leaves the queue in every case. The kind and what was known are the record's; key and name are compared, and
/// of a read whose answer is to come its completion too.
pub fn pop_state_read<E: EagerRead>(
    alloc: Global,
    commands: &mut VecDeque<RawMessage>,
    command_index: i64,
    expected: E::Lazy,
    ignore_payload_equality: bool,
) -> Result<StateRead<E::Known>, StateReadError<E::Lazy, E>>
    ensures left { commands.new.items ≡ drop 1 commands.old.items }
    ensures read { ReadsAs E.record_type E.Lazy.record_type E.of E.Lazy.of E.erased E.Lazy.erased E.known E.bare E.asked command_index ignore_payload_equality expected (next_of commands.old.items) result }
    ensures matched { (made : Request) (written : List Request) → E.Lazy.request_of expected ≡ Some made → MatchesRead ignore_payload_equality made written commands.old.items result commands.new.items }
{
    let next = take_first(commands);
    take_read(
        alloc,
        next,
        command_index,
        expected,
        ignore_payload_equality,
    )
}
