use bytes::{ByteStr, Bytes};
use protocol_wire::table::get_lazy_state_command::{KEY, NAME, RESULT_COMPLETION_ID};
use protocol_wire::{
    Payload, Record, RecordType, bytes_at, len_bytes, len_text, len_u32, put_bytes, put_text,
    put_u32, text_at, u32_at,
};
use std::alloc::{AllocError, Global};

/// The command that reads a key of the object's state, answered by a notification.
#[derive(Debug, Drop)]
pub struct GetLazyStateCommandMessage {
    pub key: Bytes,
    /// The completion id that the command's notification will carry.
    pub result_completion_id: u32,
    pub name: ByteStr,
}

impl Record for GetLazyStateCommandMessage {
    ghost use Rattle.protocol_commands.specs.Fields.{get_lazy_state_command_of, get_lazy_state_command_parts, GetLazyStateCommandFits};
    ghost use Rattle.protocol_commands.specs.ReadBack.{get_lazy_state_command_reads};
    ghost use Rattle.protocol_table.specs.declared.table.RecordType.TheVariants.{GetLazyStateCommand as get_lazy_state_command_type};

    ghost record_type = { get_lazy_state_command_type };

    ghost of = { get_lazy_state_command_of };

    ghost parts = { get_lazy_state_command_parts };

    ghost fits = { GetLazyStateCommandFits };

    fn record_type() -> RecordType {
        RecordType::GetLazyStateCommand
    }

    fn select(alloc: Global, payload: &Payload<'_>, levels: u32) -> Result<Self, AllocError> {
        Ok(GetLazyStateCommandMessage {
            key: bytes_at(alloc, payload, KEY)?,
            result_completion_id: u32_at(payload, RESULT_COMPLETION_ID),
            name: text_at(alloc, payload, NAME)?,
        })
    }

    fn spell(&self, alloc: Global, out: &mut Vec<u8>) -> Result<(), AllocError> {
        put_bytes(out, KEY, &self.key)?;
        put_u32(out, RESULT_COMPLETION_ID, self.result_completion_id)?;
        put_text(out, NAME, &self.name)?;
        Ok(())
    }

    fn payload_len(&self) -> u64 {
        let len = len_bytes(0, KEY, &self.key);
        let len = len_u32(len, RESULT_COMPLETION_ID, self.result_completion_id);
        len_text(len, NAME, &self.name)
    }

    ghost reads = { get_lazy_state_command_reads };
}
