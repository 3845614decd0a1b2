//! The frame of what is recorded, as an attempt is handed it.

ghost use Rattle.std.specs.Prelude.{◌≡◌, IfErr};
ghost use Rattle.journal_model.specs.Spelling.{frame_bytes};
ghost use Rattle.protocol_types.specs.MessageType.{type_number};
ghost use Rattle.store_invocations.specs.Rows.{Decides, payload_tests};
ghost use Rattle.store_refusals.specs.Causes.{IsUnasked};

use bytes::Bytes;
use protocol_stream::{MessageType, frame_of};
use std::alloc::Global;
use store_refusals::Refusal;

/// The frame of a payload as a message of this type, if the payload's length fits 32 bits.
pub fn payload_frame(alloc: Global, ty: MessageType, payload: &[u8]) -> Result<Bytes, Refusal>
    ensures decided { Decides (payload_tests payload.now) (λ frame. frame ≡ frame_bytes ty payload.now) result }
    ensures unasked { IfErr result IsUnasked }
{
    let frame = frame_of(alloc, ty, payload)?;
    Ok(frame)
}
