use bytes::{ByteStr, Bytes};
use protocol_records::{Value, all_three};
use protocol_wire::table::set_state_command::{KEY, NAME, VALUE};
use protocol_wire::{
    Payload, Record, RecordType, bytes_at, len_bytes, len_optional_record, len_text,
    optional_record_at, put_bytes, put_optional_record, put_text, text_at,
};
use std::alloc::{AllocError, Global};

/// The command that sets a key of the object's state. The store asks for a value.
#[derive(Debug, Drop)]
pub struct SetStateCommandMessage {
    pub key: Bytes,
    pub value: Option<Value>,
    pub name: ByteStr,
}

impl Record for SetStateCommandMessage {
    ghost use Rattle.protocol_commands.specs.Fields.{set_state_command_of, set_state_command_parts, SetStateCommandFits};
    ghost use Rattle.protocol_commands.specs.ReadBack.{set_state_command_reads};
    ghost use Rattle.protocol_table.specs.declared.table.RecordType.TheVariants.{SetStateCommand as set_state_command_type};

    ghost record_type = { set_state_command_type };

    ghost of = { set_state_command_of };

    ghost parts = { set_state_command_parts };

    ghost fits = { SetStateCommandFits };

    fn record_type() -> RecordType {
        RecordType::SetStateCommand
    }

    fn select(alloc: Global, payload: &Payload<'_>, levels: u32) -> Result<Self, AllocError> {
        let (key, value, name) = all_three(
            bytes_at(alloc, payload, KEY),
            optional_record_at(alloc, payload, VALUE, levels),
            text_at(alloc, payload, NAME),
        )?;
        Ok(SetStateCommandMessage { key, value, name })
    }

    fn spell(&self, alloc: Global, out: &mut Vec<u8>) -> Result<(), AllocError> {
        put_bytes(out, KEY, &self.key)?;
        put_optional_record(alloc, out, VALUE, &self.value)?;
        put_text(out, NAME, &self.name)?;
        Ok(())
    }

    fn payload_len(&self) -> u64 {
        let len = len_bytes(0, KEY, &self.key);
        let len = len_optional_record(len, VALUE, &self.value);
        len_text(len, NAME, &self.name)
    }

    ghost reads = { set_state_command_reads };
}
