use bytes::{ByteStr, Bytes};
use protocol_wire::table::clear_state_command::{KEY, NAME};
use protocol_wire::{
    Payload, Record, RecordType, bytes_at, len_bytes, len_text, put_bytes, put_text, text_at,
};
use std::alloc::{AllocError, Global};

/// The command that clears a key of the object's state.
#[derive(Debug, Drop)]
pub struct ClearStateCommandMessage {
    pub key: Bytes,
    pub name: ByteStr,
}

impl Record for ClearStateCommandMessage {
    ghost use Rattle.protocol_commands.specs.Fields.{clear_state_command_of, clear_state_command_parts, ClearStateCommandFits};
    ghost use Rattle.protocol_commands.specs.ReadBack.{clear_state_command_reads};
    ghost use Rattle.protocol_table.specs.declared.table.RecordType.TheVariants.{ClearStateCommand as clear_state_command_type};

    ghost record_type = { clear_state_command_type };

    ghost of = { clear_state_command_of };

    ghost parts = { clear_state_command_parts };

    ghost fits = { ClearStateCommandFits };

    fn record_type() -> RecordType {
        RecordType::ClearStateCommand
    }

    fn select(alloc: Global, payload: &Payload<'_>, levels: u32) -> Result<Self, AllocError> {
        Ok(ClearStateCommandMessage {
            key: bytes_at(alloc, payload, KEY)?,
            name: text_at(alloc, payload, NAME)?,
        })
    }

    fn spell(&self, alloc: Global, out: &mut Vec<u8>) -> Result<(), AllocError> {
        put_bytes(out, KEY, &self.key)?;
        put_text(out, NAME, &self.name)?;
        Ok(())
    }

    fn payload_len(&self) -> u64 {
        let len = len_bytes(0, KEY, &self.key);
        len_text(len, NAME, &self.name)
    }

    ghost reads = { clear_state_command_reads };
}
