ghost use Rattle.std.specs.Prelude.{◌≡◌, ◌++◌, OnOk};
ghost use Rattle.protocol_wire.specs.Fields.{fields};
ghost use Rattle.protocol_wire.specs.Selection.{optional_u32};
ghost use Rattle.protocol_wire.specs.Parts.{part_spelling, optional_number};
ghost use Rattle.protocol_wire.specs.Lengths.{counted_bytes};

use bytes::ByteStr;
use protocol_records::both;
use protocol_wire::table::error::{
    BEHAVIOR, CODE, MESSAGE, NEXT_RETRY_DELAY, RELATED_COMMAND_INDEX, RELATED_COMMAND_NAME,
    RELATED_COMMAND_TYPE,
};
use protocol_wire::{
    FieldDescriptor, Payload, Record, RecordType, len_enum, len_optional_text, len_optional_u64,
    len_present_u32, len_text, len_u32, optional_text_at, optional_u64_at, put_enum,
    put_optional_text, put_optional_u64, put_present_u32, put_text, put_u32, text_at, u32_at,
};
use std::alloc::{AllocError, Global};

/// The end of an attempt that failed.
#[derive(Debug, Drop)]
pub struct ErrorMessage {
    pub code: u32,
    pub message: ByteStr,
    /// The place in the journal of the command that failed.
    pub related_command_index: Option<u32>,
    pub related_command_name: Option<ByteStr>,
    /// Its message type.
    pub related_command_type: Option<u32>,
    /// In milliseconds.
    pub next_retry_delay: Option<u64>,
    /// Retry 0, pause 1, fail 2; another number stays as it came, and means retry. A negative one is its 32 bits.
    pub behavior: u32,
}

impl Record for ErrorMessage {
    ghost use Rattle.protocol_controls.specs.Error.{error_of, error_parts, ErrorFits};
    ghost use Rattle.protocol_controls.specs.ReadBack.{error_reads};
    ghost use Rattle.protocol_table.specs.declared.table.RecordType.TheVariants.{Error as error_type};

    ghost record_type = { error_type };

    ghost of = { error_of };

    ghost parts = { error_parts };

    ghost fits = { ErrorFits };

    fn record_type() -> RecordType {
        RecordType::Error
    }

    fn select(alloc: Global, payload: &Payload<'_>, levels: u32) -> Result<Self, AllocError> {
        let (message, related_command_name) = both(
            text_at(alloc, payload, MESSAGE),
            optional_text_at(alloc, payload, RELATED_COMMAND_NAME),
        )?;
        Ok(ErrorMessage {
            code: u32_at(payload, CODE),
            message,
            related_command_index: optional_u32_at(payload, RELATED_COMMAND_INDEX),
            related_command_name,
            related_command_type: optional_u32_at(payload, RELATED_COMMAND_TYPE),
            next_retry_delay: optional_u64_at(payload, NEXT_RETRY_DELAY),
            behavior: u32_at(payload, BEHAVIOR),
        })
    }

    fn spell(&self, alloc: Global, out: &mut Vec<u8>) -> Result<(), AllocError> {
        put_u32(out, CODE, self.code)?;
        put_text(out, MESSAGE, &self.message)?;
        put_optional_u32(out, RELATED_COMMAND_INDEX, self.related_command_index)?;
        put_optional_text(out, RELATED_COMMAND_NAME, &self.related_command_name)?;
        put_optional_u32(out, RELATED_COMMAND_TYPE, self.related_command_type)?;
        put_optional_u64(out, NEXT_RETRY_DELAY, self.next_retry_delay)?;
        put_enum(out, BEHAVIOR, self.behavior)?;
        Ok(())
    }

    fn payload_len(&self) -> u64 {
        let len = len_u32(0, CODE, self.code);
        let len = len_text(len, MESSAGE, &self.message);
        let len = len_optional_u32(len, RELATED_COMMAND_INDEX, self.related_command_index);
        let len = len_optional_text(len, RELATED_COMMAND_NAME, &self.related_command_name);
        let len = len_optional_u32(len, RELATED_COMMAND_TYPE, self.related_command_type);
        let len = len_optional_u64(len, NEXT_RETRY_DELAY, self.next_retry_delay);
        len_enum(len, BEHAVIOR, self.behavior)
    }

    ghost reads = { error_reads };
}

/// The low 32 bits of the last number of this field, if there is one.
fn optional_u32_at(payload: &Payload<'_>, field: FieldDescriptor) -> Option<u32>
    ensures { result ≡ optional_u32 field.number (fields payload.now) }
{
    let number = optional_u64_at(payload, field)?;
    Some((number % (1 << 32)) as u32)
}

/// Written where it is present, also when zero.
fn put_optional_u32(
    out: &mut Vec<u8>,
    field: FieldDescriptor,
    value: Option<u32>,
) -> Result<(), AllocError>
    ensures { OnOk result (out.new.items ≡ out.old.items ++ part_spelling (optional_number field.number value)) }
{
    match value {
        None => Ok(()),
        Some(value) => put_present_u32(out, field, value),
    }
}

/// Counted where it is present, also when zero.
fn len_optional_u32(before: u64, field: FieldDescriptor, value: Option<u32>) -> u64
    ensures { result ≡ counted_bytes before (part_spelling (optional_number field.number value)) }
{
    match value {
        None => before,
        Some(value) => len_present_u32(before, field, value),
    }
}
