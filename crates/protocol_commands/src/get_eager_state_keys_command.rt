use bytes::ByteStr;
use protocol_records::{StateKeys, both};
use protocol_wire::table::get_eager_state_keys_command::{NAME, VALUE};
use protocol_wire::{
    Payload, Record, RecordType, len_optional_record, len_text, optional_record_at,
    put_optional_record, put_text, text_at,
};
use std::alloc::{AllocError, Global};

/// The command that lists the keys of the object's state, with its answer. The store asks for the keys.
#[derive(Debug, Drop)]
pub struct GetEagerStateKeysCommandMessage {
    pub name: ByteStr,
    pub value: Option<StateKeys>,
}

impl Record for GetEagerStateKeysCommandMessage {
    ghost use Rattle.protocol_commands.specs.Fields.{get_eager_state_keys_command_of, get_eager_state_keys_command_parts, GetEagerStateKeysCommandFits};
    ghost use Rattle.protocol_commands.specs.ReadBack.{get_eager_state_keys_command_reads};
    ghost use Rattle.protocol_table.specs.declared.table.RecordType.TheVariants.{GetEagerStateKeysCommand as get_eager_state_keys_command_type};

    ghost record_type = { get_eager_state_keys_command_type };

    ghost of = { get_eager_state_keys_command_of };

    ghost parts = { get_eager_state_keys_command_parts };

    ghost fits = { GetEagerStateKeysCommandFits };

    fn record_type() -> RecordType {
        RecordType::GetEagerStateKeysCommand
    }

    fn select(alloc: Global, payload: &Payload<'_>, levels: u32) -> Result<Self, AllocError> {
        let (name, value) = both(
            text_at(alloc, payload, NAME),
            optional_record_at(alloc, payload, VALUE, levels),
        )?;
        Ok(GetEagerStateKeysCommandMessage { name, value })
    }

    fn spell(&self, alloc: Global, out: &mut Vec<u8>) -> Result<(), AllocError> {
        put_text(out, NAME, &self.name)?;
        put_optional_record(alloc, out, VALUE, &self.value)?;
        Ok(())
    }

    fn payload_len(&self) -> u64 {
        let len = len_text(0, NAME, &self.name);
        len_optional_record(len, VALUE, &self.value)
    }

    ghost reads = { get_eager_state_keys_command_reads };
}
