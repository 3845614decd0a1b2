use bytes::ByteStr;
use protocol_wire::table::get_promise_command::{KEY, NAME, RESULT_COMPLETION_ID};
use protocol_wire::{
    Payload, Record, RecordType, len_text, len_u32, put_text, put_u32, text_at, u32_at,
};
use std::alloc::{AllocError, Global};

/// The command that waits for a promise.
#[derive(Debug, Drop)]
pub struct GetPromiseCommandMessage {
    pub key: ByteStr,
    /// The completion id that the command's notification will carry.
    pub result_completion_id: u32,
    pub name: ByteStr,
}

impl Record for GetPromiseCommandMessage {
    ghost use Rattle.protocol_commands.specs.Fields.{get_promise_command_of, get_promise_command_parts, GetPromiseCommandFits};
    ghost use Rattle.protocol_commands.specs.ReadBack.{get_promise_command_reads};
    ghost use Rattle.protocol_table.specs.declared.table.RecordType.TheVariants.{GetPromiseCommand as get_promise_command_type};

    ghost record_type = { get_promise_command_type };

    ghost of = { get_promise_command_of };

    ghost parts = { get_promise_command_parts };

    ghost fits = { GetPromiseCommandFits };

    fn record_type() -> RecordType {
        RecordType::GetPromiseCommand
    }

    fn select(alloc: Global, payload: &Payload<'_>, levels: u32) -> Result<Self, AllocError> {
        Ok(GetPromiseCommandMessage {
            key: text_at(alloc, payload, KEY)?,
            result_completion_id: u32_at(payload, RESULT_COMPLETION_ID),
            name: text_at(alloc, payload, NAME)?,
        })
    }

    fn spell(&self, alloc: Global, out: &mut Vec<u8>) -> Result<(), AllocError> {
        put_text(out, KEY, &self.key)?;
        put_u32(out, RESULT_COMPLETION_ID, self.result_completion_id)?;
        put_text(out, NAME, &self.name)?;
        Ok(())
    }

    fn payload_len(&self) -> u64 {
        let len = len_text(0, KEY, &self.key);
        let len = len_u32(len, RESULT_COMPLETION_ID, self.result_completion_id);
        len_text(len, NAME, &self.name)
    }

    ghost reads = { get_promise_command_reads };
}
