use protocol_wire::{Payload, Record, RecordType};
use std::alloc::{AllocError, Global};

/// Nothing: the result of what answers no value.
#[derive(Debug, Drop)]
pub struct Void {}

impl Record for Void {
    ghost use Rattle.protocol_records.specs.Void.{void_of, void_parts, VoidFits};
    ghost use Rattle.protocol_records.specs.ReadBack.{void_reads};
    ghost use Rattle.protocol_table.specs.declared.table.RecordType.TheVariants.{Void as void_type};

    ghost record_type = { void_type };

    ghost of = { void_of };

    ghost parts = { void_parts };

    ghost fits = { VoidFits };

    fn record_type() -> RecordType {
        RecordType::Void
    }

    fn select(alloc: Global, payload: &Payload<'_>, levels: u32) -> Result<Self, AllocError> {
        Ok(Void {})
    }

    fn spell(&self, alloc: Global, out: &mut Vec<u8>) -> Result<(), AllocError> {
        Ok(())
    }

    fn payload_len(&self) -> u64 {
        0
    }

    ghost reads = { void_reads };
}
