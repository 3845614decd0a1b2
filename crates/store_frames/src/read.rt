// Reading a message from an attempt.
ghost use Rattle.std.specs.Prelude.{◌≡◌, IfOk};
ghost use Rattle.protocol_wire.specs.declared.record.TheConstants.{LEVELS};
ghost use Rattle.protocol_types.specs.declared.feature.Feature.TheVariants.{AwaitTree};
ghost use Rattle.protocol_types.specs.Feature.{lacks_feature};
ghost use Rattle.protocol_types.specs.Version.{version_number};
ghost use Rattle.store_frames.specs.Answer.{IsFrame};
ghost use Rattle.store_frames.specs.Kind.{frame_kind};
ghost use Rattle.store_frames.specs.FrameMeanings.{asks_ack, frame_of};
ghost use Rattle.store_frames.specs.RecordFrames.{told_as, told_by, told_suspension};

use crate::commands::read_by_type;
use crate::fault::{faulty, read_other, unless_faulty};
use crate::frame::AttemptFrame;
use crate::kind::{FrameKind, kind_of};
use crate::proposal::read_proposal;
use crate::record::FrameRecord;
use protocol_controls::ErrorMessage;
use protocol_records::{AwaitingOnMessage, SuspensionMessage, SuspensionMessageV6};
use protocol_stream::{Feature, MessageHeader, MessageType, RawMessage, Version};
use protocol_wire::{DecodeError, RecordType, decode};
use std::alloc::{AllocError, Global};

/// What is kept of the record that a payload is.
fn read_as<R: FrameRecord>(
    alloc: Global,
    version: Version,
    payload: &[u8],
) -> Result<AttemptFrame, AllocError>
    ensures { IfOk result (λ frame. frame ≡ told_as R.record_type (λ fs. R.told (version_number version) (R.of LEVELS fs)) payload.now) }
{
    match decode::<R>(alloc, payload) {
        Ok(one) => {
            let frame = one.to_frame(alloc, version);
            drop(one);
            frame
        }
        Err(DecodeError::Fault(fault)) => Ok(faulty(fault)),
        Err(DecodeError::Memory) => Err(AllocError),
    }
}

fn read_suspension(
    alloc: Global,
    version: Version,
    payload: &[u8],
) -> Result<AttemptFrame, AllocError>
    ensures { IfOk result (λ frame. frame ≡ told_suspension (lacks_feature (version_number version) AwaitTree) (version_number version) payload.now) }
{
    if Feature::AwaitTree.is_later_than(version.number()) {
        read_as::<SuspensionMessageV6>(alloc, version, payload)
    } else {
        read_as::<SuspensionMessage>(alloc, version, payload)
    }
}

fn read_payload(
    alloc: Global,
    version: Version,
    ty: MessageType,
    is_acknowledged: bool,
    payload: &[u8],
) -> Result<AttemptFrame, AllocError>
    ensures { IfOk result (λ frame. frame ≡ told_by (version_number version) (frame_kind ty) ty is_acknowledged payload.now) }
{
    match kind_of(ty) {
        FrameKind::Command => read_by_type(alloc, ty, payload),
        FrameKind::AwaitingOn => read_as::<AwaitingOnMessage>(alloc, version, payload),
        FrameKind::Suspension => read_suspension(alloc, version, payload),
        FrameKind::Error => read_as::<ErrorMessage>(alloc, version, payload),
        FrameKind::End => Ok(unless_faulty(RecordType::End, payload, AttemptFrame::End)),
        FrameKind::RunOutcome => read_proposal(alloc, is_acknowledged, payload),
        FrameKind::Other => Ok(read_other(ty, payload, AttemptFrame::NotAccepted)),
    }
}

/// Whether a header asks for an acknowledgement.
fn asks_ack(header: MessageHeader) -> bool
    ensures { result ≡ asks_ack header }
{
    header.requested_ack().unwrap_or(false)
}

/// The frame that a message from an attempt of this version of the protocol is, whose payload is looked at in its place. An
/// `Err` is for want of memory alone.
pub fn read_frame_at(
    alloc: Global,
    version: Version,
    header: MessageHeader,
    payload: &[u8],
) -> Result<AttemptFrame, AllocError>
    ensures { IfOk result (IsFrame (frame_of (version_number version) (record { header = header; payload = payload.now }))) }
{
    read_payload(
        alloc,
        version,
        header.message_type(),
        asks_ack(header),
        payload,
    )
}

/// The frame that a message from an attempt of this version of the protocol is. An `Err` is for want of memory alone.
pub fn read_frame(
    alloc: Global,
    version: Version,
    message: &RawMessage,
) -> Result<AttemptFrame, AllocError>
    ensures { IfOk result (IsFrame (frame_of (version_number version) message.now)) }
{
    read_payload(
        alloc,
        version,
        message.ty(),
        asks_ack(message.header()),
        message.payload.as_slice(),
    )
}
