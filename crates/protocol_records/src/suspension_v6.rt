use crate::gather::all_three;
use bytes::ByteStr;
use protocol_wire::table::suspension_v6::{
    WAITING_COMPLETIONS, WAITING_NAMED_SIGNALS, WAITING_SIGNALS,
};
use protocol_wire::{
    Payload, Record, RecordType, len_numbers, len_texts, numbers_at, put_numbers, put_texts,
    texts_at,
};
use sequence::Sequence;
use std::alloc::{AllocError, Global};

/// The end of an attempt that waits, before version 7: what it waits for, as three lists.
#[derive(Debug, Drop)]
pub struct SuspensionMessageV6 {
    /// Completion ids.
    pub waiting_completions: Sequence<u32>,
    /// Signal ids.
    pub waiting_signals: Sequence<u32>,
    /// Signal names.
    pub waiting_named_signals: Sequence<ByteStr>,
}

impl Record for SuspensionMessageV6 {
    ghost use Rattle.protocol_records.specs.SuspensionV6.{suspension_v6_of, suspension_v6_parts, SuspensionV6Fits};
    ghost use Rattle.protocol_records.specs.ReadBack.{suspension_v6_reads};
    ghost use Rattle.protocol_table.specs.declared.table.RecordType.TheVariants.{SuspensionV6 as suspension_v6_type};

    ghost record_type = { suspension_v6_type };

    ghost of = { suspension_v6_of };

    ghost parts = { suspension_v6_parts };

    ghost fits = { SuspensionV6Fits };

    fn record_type() -> RecordType {
        RecordType::SuspensionV6
    }

    fn select(alloc: Global, payload: &Payload<'_>, levels: u32) -> Result<Self, AllocError> {
        let (waiting_completions, waiting_signals, waiting_named_signals) = all_three(
            numbers_at(alloc, payload, WAITING_COMPLETIONS),
            numbers_at(alloc, payload, WAITING_SIGNALS),
            texts_at(alloc, payload, WAITING_NAMED_SIGNALS),
        )?;
        Ok(SuspensionMessageV6 {
            waiting_completions,
            waiting_signals,
            waiting_named_signals,
        })
    }

    fn spell(&self, alloc: Global, out: &mut Vec<u8>) -> Result<(), AllocError> {
        put_numbers(alloc, out, WAITING_COMPLETIONS, &self.waiting_completions)?;
        put_numbers(alloc, out, WAITING_SIGNALS, &self.waiting_signals)?;
        put_texts(out, WAITING_NAMED_SIGNALS, &self.waiting_named_signals)?;
        Ok(())
    }

    fn payload_len(&self) -> u64 {
        let len = len_numbers(0, WAITING_COMPLETIONS, &self.waiting_completions);
        let len = len_numbers(len, WAITING_SIGNALS, &self.waiting_signals);
        len_texts(len, WAITING_NAMED_SIGNALS, &self.waiting_named_signals)
    }

    ghost reads = { suspension_v6_reads };
}
