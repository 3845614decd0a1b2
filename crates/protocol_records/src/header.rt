use bytes::ByteStr;
use protocol_wire::table::header::{KEY, VALUE};
use protocol_wire::{Payload, Record, RecordType, len_text, put_text, text_at};
use std::alloc::{AllocError, Global};

/// A header of an input or of a call. A key may come more than once.
#[derive(Debug, Drop)]
pub struct Header {
    pub key: ByteStr,
    pub value: ByteStr,
}

impl Record for Header {
    ghost use Rattle.protocol_records.specs.Header.{header_of, header_parts, HeaderFits};
    ghost use Rattle.protocol_records.specs.ReadBack.{header_reads};
    ghost use Rattle.protocol_table.specs.declared.table.RecordType.TheVariants.{Header as header_type};

    ghost record_type = { header_type };

    ghost of = { header_of };

    ghost parts = { header_parts };

    ghost fits = { HeaderFits };

    fn record_type() -> RecordType {
        RecordType::Header
    }

    fn select(alloc: Global, payload: &Payload<'_>, levels: u32) -> Result<Self, AllocError> {
        Ok(Header {
            key: text_at(alloc, payload, KEY)?,
            value: text_at(alloc, payload, VALUE)?,
        })
    }

    fn spell(&self, alloc: Global, out: &mut Vec<u8>) -> Result<(), AllocError> {
        put_text(out, KEY, &self.key)?;
        put_text(out, VALUE, &self.value)?;
        Ok(())
    }

    fn payload_len(&self) -> u64 {
        let len = len_text(0, KEY, &self.key);
        len_text(len, VALUE, &self.value)
    }

    ghost reads = { header_reads };
}
