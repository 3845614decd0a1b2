use crate::future::Future;
use protocol_wire::table::suspension::AWAITING_ON;
use protocol_wire::{
    Payload, Record, RecordType, len_optional_record, optional_record_at, put_optional_record,
};
use std::alloc::{AllocError, Global};

/// The end of an attempt that waits, from version 7 on. The store asks for the tree.
#[derive(Debug, Drop)]
pub struct SuspensionMessage {
    /// What the attempt waits for.
    pub awaiting_on: Option<Future>,
}

impl Record for SuspensionMessage {
    ghost use Rattle.protocol_records.specs.Suspension.{suspension_of, suspension_parts, SuspensionFits};
    ghost use Rattle.protocol_records.specs.ReadBack.{suspension_reads};
    ghost use Rattle.protocol_table.specs.declared.table.RecordType.TheVariants.{Suspension as suspension_type};

    ghost record_type = { suspension_type };

    ghost of = { suspension_of };

    ghost parts = { suspension_parts };

    ghost fits = { SuspensionFits };

    fn record_type() -> RecordType {
        RecordType::Suspension
    }

    fn select(alloc: Global, payload: &Payload<'_>, levels: u32) -> Result<Self, AllocError> {
        Ok(SuspensionMessage {
            awaiting_on: optional_record_at(alloc, payload, AWAITING_ON, levels)?,
        })
    }

    fn spell(&self, alloc: Global, out: &mut Vec<u8>) -> Result<(), AllocError> {
        put_optional_record(alloc, out, AWAITING_ON, &self.awaiting_on)?;
        Ok(())
    }

    fn payload_len(&self) -> u64 {
        len_optional_record(0, AWAITING_ON, &self.awaiting_on)
    }

    ghost reads = { suspension_reads };
}
