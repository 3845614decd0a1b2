use crate::gather::all_three;
use crate::header::Header;
use crate::value::Value;
use bytes::ByteStr;
use protocol_wire::table::input_command::{HEADERS, NAME, VALUE};
use protocol_wire::{
    Payload, Record, RecordType, len_optional_record, len_records, len_text, optional_record_at,
    put_optional_record, put_records, put_text, records_at, text_at,
};
use sequence::Sequence;
use std::alloc::{AllocError, Global};

/// The input of an invocation, its journal's first entry.
#[derive(Debug, Drop)]
pub struct InputCommandMessage {
    pub headers: Sequence<Header>,
    pub name: ByteStr,
    pub value: Option<Value>,
}

impl Record for InputCommandMessage {
    ghost use Rattle.protocol_records.specs.InputCommand.{input_command_of, input_command_parts, InputCommandFits};
    ghost use Rattle.protocol_records.specs.ReadBack.{input_command_reads};
    ghost use Rattle.protocol_table.specs.declared.table.RecordType.TheVariants.{InputCommand as input_command_type};

    ghost record_type = { input_command_type };

    ghost of = { input_command_of };

    ghost parts = { input_command_parts };

    ghost fits = { InputCommandFits };

    fn record_type() -> RecordType {
        RecordType::InputCommand
    }

    fn select(alloc: Global, payload: &Payload<'_>, levels: u32) -> Result<Self, AllocError> {
        let (headers, name, value) = all_three(
            records_at(alloc, payload, HEADERS, levels),
            text_at(alloc, payload, NAME),
            optional_record_at(alloc, payload, VALUE, levels),
        )?;
        Ok(InputCommandMessage {
            headers,
            name,
            value,
        })
    }

    fn spell(&self, alloc: Global, out: &mut Vec<u8>) -> Result<(), AllocError> {
        put_records(alloc, out, HEADERS, &self.headers)?;
        put_text(out, NAME, &self.name)?;
        put_optional_record(alloc, out, VALUE, &self.value)?;
        Ok(())
    }

    fn payload_len(&self) -> u64 {
        let len = len_records(0, HEADERS, &self.headers);
        let len = len_text(len, NAME, &self.name);
        len_optional_record(len, VALUE, &self.value)
    }

    ghost reads = { input_command_reads };
}
