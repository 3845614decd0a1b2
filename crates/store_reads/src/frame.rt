//! A row as the frame that an attempt is handed.

ghost use Rattle.std.specs.Prelude.{◌≡◌, IfOk};
ghost use Rattle.journal_model.specs.Spelling.{acknowledgement_payload, frame_bytes};
ghost use Rattle.protocol_types.specs.declared.message_type.MessageType.{MessageType};
ghost use Rattle.store_model.specs.Lookups.{row_frame};
ghost use Rattle.store_live_laws.specs.Memory.{frame_read};
ghost use Rattle.store_reads.specs.RowFrames.{frame_as, frame_told};

use bytes::{Bytes, BytesMut};
use protocol_controls::ProposeRunCompletionAckMessage;
use protocol_stream::{MessageType, put_frame};
use protocol_wire::encode;
use std::alloc::{AllocError, Global};
use store_live::{AttemptInput, FrameRead, NextRow};
use store_tables::EntryRow;

fn frame(alloc: Global, ty: MessageType, payload: &[u8]) -> Result<Bytes, AllocError>
    ensures { IfOk result (λ frame. frame ≡ frame_bytes ty payload.now) }
{
    let mut out = BytesMut::new(alloc);
    put_frame(&mut out, ty, payload)?;
    Ok(out.freeze()?)
}

/// The frame that tells an attempt that the outcome which it proposed is recorded.
fn acknowledgement(alloc: Global, completion: u32) -> Result<Bytes, AllocError>
    ensures { IfOk result (λ frame. frame ≡ frame_bytes MessageType.ProposeRunCompletionAck (acknowledgement_payload completion)) }
{
    let told = ProposeRunCompletionAckMessage {
        completion_id: completion,
    };
    let payload = encode(alloc, &told)?;
    frame(
        alloc,
        MessageType::ProposeRunCompletionAck,
        payload.as_slice(),
    )
}

/// The completion whose outcome's row this is, where the attempt is to acknowledge it.
pub(crate) fn acknowledged(input: &AttemptInput, next: NextRow, row: &EntryRow) -> Option<u32>
    ensures { frame_as result row.now ≡ frame_read input.now.unread next row.now }
{
    let NextRow::Arrival(_) = next else {
        return None;
    };
    let Some(completion) = row.answered else {
        return None;
    };
    if input.is_to_acknowledge(completion) {
        Some(completion)
    } else {
        None
    }
}

fn bytes_of(alloc: Global, row: &EntryRow, acknowledged: Option<u32>) -> Result<Bytes, AllocError>
    ensures { IfOk result (λ bytes. bytes ≡ frame_told acknowledged row.now) }
{
    match acknowledged {
        Some(completion) => acknowledgement(alloc, completion),
        None => frame(alloc, row.kind, row.payload.as_slice()),
    }
}

/// The frame of a row: what is recorded, or that the outcome came.
pub(crate) fn frame_of(
    alloc: Global,
    row: &EntryRow,
    acknowledged: Option<u32>,
) -> Result<FrameRead, AllocError>
    ensures { IfOk result (λ frame. frame ≡ frame_as acknowledged row.now) }
{
    Ok(FrameRead {
        place: row.place,
        is_arrival: row.arrival.is_some(),
        is_acknowledgement: acknowledged.is_some(),
        bytes: bytes_of(alloc, row, acknowledged)?,
    })
}
