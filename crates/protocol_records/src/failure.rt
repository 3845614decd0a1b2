use crate::gather::both;
use bytes::ByteStr;
use protocol_wire::table::{failure, failure_metadata};
use protocol_wire::{
    Payload, Record, RecordType, len_records, len_text, len_u32, put_records, put_text, put_u32,
    records_at, text_at, u32_at,
};
use sequence::Sequence;
use std::alloc::{AllocError, Global};

/// A pair that a failure carries along.
#[derive(Debug, Drop)]
pub struct FailureMetadata {
    pub key: ByteStr,
    pub value: ByteStr,
}

impl Record for FailureMetadata {
    ghost use Rattle.protocol_records.specs.FailureMetadata.{failure_metadata_of, failure_metadata_parts, FailureMetadataFits};
    ghost use Rattle.protocol_records.specs.ReadBack.{failure_metadata_reads};
    ghost use Rattle.protocol_table.specs.declared.table.RecordType.TheVariants.{FailureMetadata as failure_metadata_type};

    ghost record_type = { failure_metadata_type };

    ghost of = { failure_metadata_of };

    ghost parts = { failure_metadata_parts };

    ghost fits = { FailureMetadataFits };

    fn record_type() -> RecordType {
        RecordType::FailureMetadata
    }

    fn select(alloc: Global, payload: &Payload<'_>, levels: u32) -> Result<Self, AllocError> {
        Ok(FailureMetadata {
            key: text_at(alloc, payload, failure_metadata::KEY)?,
            value: text_at(alloc, payload, failure_metadata::VALUE)?,
        })
    }

    fn spell(&self, alloc: Global, out: &mut Vec<u8>) -> Result<(), AllocError> {
        put_text(out, failure_metadata::KEY, &self.key)?;
        put_text(out, failure_metadata::VALUE, &self.value)?;
        Ok(())
    }

    fn payload_len(&self) -> u64 {
        let len = len_text(0, failure_metadata::KEY, &self.key);
        len_text(len, failure_metadata::VALUE, &self.value)
    }

    ghost reads = { failure_metadata_reads };
}

/// A failure that ends what it is the result of.
#[derive(Debug, Drop)]
pub struct Failure {
    pub code: u32,
    pub message: ByteStr,
    pub metadata: Sequence<FailureMetadata>,
}

impl Record for Failure {
    ghost use Rattle.protocol_records.specs.Failure.{failure_of, failure_parts, FailureFits};
    ghost use Rattle.protocol_records.specs.ReadBack.{failure_reads};
    ghost use Rattle.protocol_table.specs.declared.table.RecordType.TheVariants.{Failure as failure_type};

    ghost record_type = { failure_type };

    ghost of = { failure_of };

    ghost parts = { failure_parts };

    ghost fits = { FailureFits };

    fn record_type() -> RecordType {
        RecordType::Failure
    }

    fn select(alloc: Global, payload: &Payload<'_>, levels: u32) -> Result<Self, AllocError> {
        let (message, metadata) = both(
            text_at(alloc, payload, failure::MESSAGE),
            records_at(alloc, payload, failure::METADATA, levels),
        )?;
        Ok(Failure {
            code: u32_at(payload, failure::CODE),
            message,
            metadata,
        })
    }

    fn spell(&self, alloc: Global, out: &mut Vec<u8>) -> Result<(), AllocError> {
        put_u32(out, failure::CODE, self.code)?;
        put_text(out, failure::MESSAGE, &self.message)?;
        put_records(alloc, out, failure::METADATA, &self.metadata)?;
        Ok(())
    }

    fn payload_len(&self) -> u64 {
        let len = len_u32(0, failure::CODE, self.code);
        let len = len_text(len, failure::MESSAGE, &self.message);
        len_records(len, failure::METADATA, &self.metadata)
    }

    ghost reads = { failure_reads };
}
