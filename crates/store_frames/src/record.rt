// What is kept of each record that an attempt writes, other than commands.
ghost use Rattle.std.specs.Prelude.{◌≡◌, ℕ, ◌&&◌, IfOk};
ghost use Rattle.journal_model.specs.AwaitTree.{has_number};
ghost use Rattle.protocol_trees.specs.Future.{future_tree};
ghost use Rattle.protocol_types.specs.Feature.{lacks_feature};
ghost use Rattle.protocol_types.specs.declared.feature.Feature.TheVariants.{AtLeast};
ghost use Rattle.protocol_wire.specs.Parts.{payload_of};
ghost use Rattle.store_frames.specs.declared.frame.AttemptFrame.{AttemptFrame};
ghost use Rattle.protocol_types.specs.Version.{version_number};
ghost use Rattle.store_frames.specs.RecordFrames.{told_behavior, told_number};

use crate::frame::{AttemptFrame, ErrorBehavior};
use crate::tree::{has_number, tree_payload};
use bytes::Bytes;
use protocol_controls::ErrorMessage;
use protocol_records::{AwaitingOnMessage, Future, SuspensionMessage, SuspensionMessageV6};
use protocol_stream::{Feature, Version};
use protocol_wire::{Record, encode};
use std::alloc::{AllocError, Global};

/// A record that a frame of an attempt is the payload of, other than a command.
pub(crate) trait FrameRecord: Record {
    ghost told: { ℕ → Self → AttemptFrame };

    /// What is kept of it, in this version.
    fn to_frame(&self, alloc: Global, version: Version) -> Result<AttemptFrame, AllocError>
        ensures { IfOk result (λ frame. frame ≡ told (version_number version) self.now) };
}

// Whether a tree asks for a number of successes, in a version in which none does.
fn asks_too_early(version: Version, awaited: &Future) -> bool
    ensures { result ≡ (lacks_feature (version_number version) AtLeast && has_number (future_tree awaited.now)) }
{
    Feature::AtLeast.is_later_than(version.number()) && has_number(awaited)
}

/// The canonical payload.
pub(crate) fn canonical<R: Record>(alloc: Global, one: &R) -> Result<Bytes, AllocError>
    ensures { IfOk result (λ payload. payload ≡ payload_of (R.parts one.now)) }
{
    Ok(Bytes::from_vec(encode(alloc, one)?)?)
}

impl FrameRecord for SuspensionMessage {
    ghost use Rattle.store_frames.specs.RecordFrames.{told_tree};

    ghost told = { told_tree };

    fn to_frame(&self, alloc: Global, version: Version) -> Result<AttemptFrame, AllocError> {
        match &self.awaiting_on {
            None => Ok(AttemptFrame::Broken),
            Some(awaited) if asks_too_early(version, awaited) => Ok(AttemptFrame::Broken),
            Some(awaited) => Ok(AttemptFrame::Suspension {
                payload: tree_payload(alloc, awaited)?,
            }),
        }
    }
}

impl FrameRecord for AwaitingOnMessage {
    ghost use Rattle.store_frames.specs.RecordFrames.{told_awaiting};

    ghost told = { told_awaiting };

    fn to_frame(&self, _alloc: Global, version: Version) -> Result<AttemptFrame, AllocError> {
        match &self.awaiting_on {
            Some(awaited) if asks_too_early(version, awaited) => Ok(AttemptFrame::Broken),
            _ => Ok(AttemptFrame::AwaitingOn),
        }
    }
}

impl FrameRecord for SuspensionMessageV6 {
    ghost use Rattle.store_frames.specs.RecordFrames.{told_lists};

    ghost told = { λ version one. told_lists one };

    fn to_frame(&self, alloc: Global, _version: Version) -> Result<AttemptFrame, AllocError> {
        Ok(AttemptFrame::Suspension {
            payload: canonical(alloc, self)?,
        })
    }
}

fn numbered(number: u32) -> ErrorBehavior
    ensures { result ≡ told_number number }
{
    if number == 1 {
        ErrorBehavior::Pause
    } else if number == 2 {
        ErrorBehavior::Fail
    } else {
        ErrorBehavior::Retry
    }
}

fn behavior_of(version: Version, number: u32) -> ErrorBehavior
    ensures { result ≡ told_behavior (version_number version) number }
{
    if Feature::ErrorBehavior.is_later_than(version.number()) {
        ErrorBehavior::Retry
    } else {
        numbered(number)
    }
}

impl FrameRecord for ErrorMessage {
    ghost use Rattle.store_frames.specs.RecordFrames.{told_error};

    ghost told = { told_error };

    fn to_frame(&self, _alloc: Global, version: Version) -> Result<AttemptFrame, AllocError> {
        Ok(AttemptFrame::Error {
            code: self.code,
            message: self.message.clone()?,
            behavior: behavior_of(version, self.behavior),
            delay: self.next_retry_delay,
        })
    }
}
