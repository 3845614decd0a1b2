// Payloads with which something is wrong.
ghost use Rattle.std.specs.Prelude.{◌≡◌};
ghost use Rattle.protocol_wire.specs.Check.{payload_fault};
ghost use Rattle.protocol_wire.specs.declared.record.TheConstants.{LEVELS};
ghost use Rattle.store_frames.specs.Kind.{record_of};
ghost use Rattle.store_frames.specs.RecordFrames.{told_faulty, told_if_record, told_unless_faulty};

use crate::frame::AttemptFrame;
use crate::kind::record_of;
use protocol_stream::MessageType;
use protocol_wire::{Fault, LEVELS, Payload, RecordType, fault_in};

pub(crate) fn faulty(fault: Fault) -> AttemptFrame
    ensures { result ≡ told_faulty fault }
{
    match fault {
        Fault::BadPayload => AttemptFrame::Broken,
        Fault::TooDeep => AttemptFrame::TooDeep,
    }
}

/// The frame, of whose record nothing is kept, unless its payload has a fault.
pub(crate) fn unless_faulty(of: RecordType, payload: &[u8], frame: AttemptFrame) -> AttemptFrame
    ensures { result ≡ told_unless_faulty (payload_fault LEVELS of payload.now) frame }
{
    match fault_in(of, &Payload::new(payload), LEVELS) {
        None => frame,
        Some(fault) => {
            drop(frame);
            faulty(fault)
        }
    }
}

/// The frame, of whose record nothing is kept, unless its payload has a fault. A custom entry is never accepted.
pub(crate) fn read_other(ty: MessageType, payload: &[u8], frame: AttemptFrame) -> AttemptFrame
    ensures { result ≡ told_if_record (record_of ty) (λ fs. frame) payload.now }
{
    match record_of(ty) {
        Some(of) => unless_faulty(of, payload, frame),
        None => {
            drop(frame);
            AttemptFrame::NotAccepted
        }
    }
}
