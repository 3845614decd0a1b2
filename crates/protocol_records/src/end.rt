use protocol_wire::{Payload, Record, RecordType};
use std::alloc::{AllocError, Global};

/// The end of an attempt that is done.
#[derive(Debug, Drop)]
pub struct EndMessage {}

impl Record for EndMessage {
    ghost use Rattle.protocol_records.specs.End.{end_message_of, end_parts, EndFits};
    ghost use Rattle.protocol_records.specs.ReadBack.{end_reads};
    ghost use Rattle.protocol_table.specs.declared.table.RecordType.TheVariants.{End as end_type};

    ghost record_type = { end_type };

    ghost of = { end_message_of };

    ghost parts = { end_parts };

    ghost fits = { EndFits };

    fn record_type() -> RecordType {
        RecordType::End
    }

    fn select(alloc: Global, payload: &Payload<'_>, levels: u32) -> Result<Self, AllocError> {
        Ok(EndMessage {})
    }

    fn spell(&self, alloc: Global, out: &mut Vec<u8>) -> Result<(), AllocError> {
        Ok(())
    }

    fn payload_len(&self) -> u64 {
        0
    }

    ghost reads = { end_reads };
}
