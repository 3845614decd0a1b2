use bytes::ByteStr;
use protocol_wire::table::get_lazy_state_keys_command::{NAME, RESULT_COMPLETION_ID};
use protocol_wire::{
    Payload, Record, RecordType, len_text, len_u32, put_text, put_u32, text_at, u32_at,
};
use std::alloc::{AllocError, Global};

/// The command that lists the keys of the object's state, answered by a notification.
#[derive(Debug, Drop)]
pub struct GetLazyStateKeysCommandMessage {
    /// The completion id that the command's notification will carry.
    pub result_completion_id: u32,
    pub name: ByteStr,
}

impl Record for GetLazyStateKeysCommandMessage {
    ghost use Rattle.protocol_commands.specs.Fields.{get_lazy_state_keys_command_of, get_lazy_state_keys_command_parts, GetLazyStateKeysCommandFits};
    ghost use Rattle.protocol_commands.specs.ReadBack.{get_lazy_state_keys_command_reads};
    ghost use Rattle.protocol_table.specs.declared.table.RecordType.TheVariants.{GetLazyStateKeysCommand as get_lazy_state_keys_command_type};

    ghost record_type = { get_lazy_state_keys_command_type };

    ghost of = { get_lazy_state_keys_command_of };

    ghost parts = { get_lazy_state_keys_command_parts };

    ghost fits = { GetLazyStateKeysCommandFits };

    fn record_type() -> RecordType {
        RecordType::GetLazyStateKeysCommand
    }

    fn select(alloc: Global, payload: &Payload<'_>, levels: u32) -> Result<Self, AllocError> {
        Ok(GetLazyStateKeysCommandMessage {
            result_completion_id: u32_at(payload, RESULT_COMPLETION_ID),
            name: text_at(alloc, payload, NAME)?,
        })
    }

    fn spell(&self, alloc: Global, out: &mut Vec<u8>) -> Result<(), AllocError> {
        put_u32(out, RESULT_COMPLETION_ID, self.result_completion_id)?;
        put_text(out, NAME, &self.name)?;
        Ok(())
    }

    fn payload_len(&self) -> u64 {
        let len = len_u32(0, RESULT_COMPLETION_ID, self.result_completion_id);
        len_text(len, NAME, &self.name)
    }

    ghost reads = { get_lazy_state_keys_command_reads };
}
