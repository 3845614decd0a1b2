// What a command is read as.
ghost use Rattle.std.specs.Prelude.{◌≡◌, Option, None, IfOk, true, option_map};
ghost use Rattle.protocol_wire.specs.declared.record.TheConstants.{LEVELS};
ghost use Rattle.journal_model.specs.Request.{Request};
ghost use Rattle.store_frames.specs.Commands.{SpellsRequests, asked_for};
ghost use Rattle.store_frames.specs.RecordFrames.{told_as, told_command, told_request};
ghost use Rattle.store_frames.specs.declared.frame.StateUse.TheVariants as uses;

use crate::fault::faulty;
use crate::frame::{AttemptFrame, RecordedCommand, StateUse};
use crate::record::canonical;
use bytes::Bytes;
use protocol_stream::MessageType;
use protocol_wire::{DecodeError, Record, decode};
use std::alloc::{AllocError, Global};

/// What is kept of a command beside its payload.
#[derive(Debug, Drop)]
pub struct AskedFor {
    pub kind: MessageType,
    pub completion: Option<u32>,
    pub second_completion: Option<u32>,
    pub moment: u64,
    pub state: StateUse,
    pub are_keys_text: bool,
}

impl AskedFor {
    /// By a command that asks for these completions.
    pub(crate) fn of(
        kind: MessageType,
        completion: Option<u32>,
        second_completion: Option<u32>,
    ) -> AskedFor
        ensures { result ≡ record { kind = kind; completion = completion; second_completion = second_completion; moment = 0; state = uses.Nothing; are_keys_text = true } }
    {
        AskedFor {
            kind,
            completion,
            second_completion,
            moment: 0,
            state: StateUse::Nothing,
            are_keys_text: true,
        }
    }

    /// By a command that names one key, or names some, with the state.
    pub(crate) fn of_keys(
        kind: MessageType,
        completion: Option<u32>,
        state: StateUse,
        are_keys_text: bool,
    ) -> AskedFor
        ensures { result ≡ record { kind = kind; completion = completion; second_completion = None; moment = 0; state = state; are_keys_text = are_keys_text } }
    {
        AskedFor {
            kind,
            completion,
            second_completion: None,
            moment: 0,
            state,
            are_keys_text,
        }
    }
}

/// A record that is the payload of a command.
pub(crate) trait CommandRecord: Record {
    // The request that it stands for, where it has what each request of its kind has.
    ghost request_of: { Self → Option Request };

    /// What is kept of that request beside its payload.
    fn asked(&self) -> Result<Option<AskedFor>, AllocError>
        ensures { IfOk result (λ asked. asked ≡ option_map asked_for (request_of self.now)) };

    // Its canonical payload is that request's.
    ghost spelled: { SpellsRequests Self.parts request_of };
}

/// A command with this payload.
fn with_payload(asked: AskedFor, payload: Bytes) -> AttemptFrame
    ensures { result ≡ told_command payload asked }
{
    AttemptFrame::Command(RecordedCommand {
        kind: asked.kind,
        payload,
        completion: asked.completion,
        second_completion: asked.second_completion,
        moment: asked.moment,
        state: asked.state,
        are_keys_text: asked.are_keys_text,
    })
}

/// What is kept of a command. One that lacks what each request of its kind has is broken.
fn to_frame<R: CommandRecord>(alloc: Global, one: &R) -> Result<AttemptFrame, AllocError>
    ensures { IfOk result (λ frame. frame ≡ told_request (R.request_of one.now)) }
{
    match one.asked()? {
        None => Ok(AttemptFrame::Broken),
        Some(asked) => match canonical(alloc, one) {
            Ok(payload) => Ok(with_payload(asked, payload)),
            Err(error) => {
                drop(asked);
                Err(error)
            }
        },
    }
}

/// What is kept of the command whose payload this is.
pub(crate) fn read_command<R: CommandRecord>(
    alloc: Global,
    payload: &[u8],
) -> Result<AttemptFrame, AllocError>
    ensures { IfOk result (λ frame. frame ≡ told_as R.record_type (λ fs. told_request (R.request_of (R.of LEVELS fs))) payload.now) }
{
    match decode::<R>(alloc, payload) {
        Ok(one) => {
            let frame = to_frame(alloc, &one);
            drop(one);
            frame
        }
        Err(DecodeError::Fault(fault)) => Ok(faulty(fault)),
        Err(DecodeError::Memory) => Err(AllocError),
    }
}
