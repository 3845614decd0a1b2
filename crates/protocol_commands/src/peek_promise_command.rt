use bytes::ByteStr;
use protocol_wire::table::peek_promise_command::{KEY, NAME, RESULT_COMPLETION_ID};
use protocol_wire::{
    Payload, Record, RecordType, len_text, len_u32, put_text, put_u32, text_at, u32_at,
};
use std::alloc::{AllocError, Global};

/// The command that looks whether a promise is completed.
#[derive(Debug, Drop)]
pub struct PeekPromiseCommandMessage {
    pub key: ByteStr,
    /// The completion id that the command's notification will carry.
    pub result_completion_id: u32,
    pub name: ByteStr,
}

impl Record for PeekPromiseCommandMessage {
    ghost use Rattle.protocol_commands.specs.Fields.{peek_promise_command_of, peek_promise_command_parts, PeekPromiseCommandFits};
    ghost use Rattle.protocol_commands.specs.ReadBack.{peek_promise_command_reads};
    ghost use Rattle.protocol_table.specs.declared.table.RecordType.TheVariants.{PeekPromiseCommand as peek_promise_command_type};

    ghost record_type = { peek_promise_command_type };

    ghost of = { peek_promise_command_of };

    ghost parts = { peek_promise_command_parts };

    ghost fits = { PeekPromiseCommandFits };

    fn record_type() -> RecordType {
        RecordType::PeekPromiseCommand
    }

    fn select(alloc: Global, payload: &Payload<'_>, levels: u32) -> Result<Self, AllocError> {
        Ok(PeekPromiseCommandMessage {
            key: text_at(alloc, payload, KEY)?,
            result_completion_id: u32_at(payload, RESULT_COMPLETION_ID),
            name: text_at(alloc, payload, NAME)?,
        })
    }

    fn spell(&self, alloc: Global, out: &mut Vec<u8>) -> Result<(), AllocError> {
        put_text(out, KEY, &self.key)?;
        put_u32(out, RESULT_COMPLETION_ID, self.result_completion_id)?;
        put_text(out, NAME, &self.name)?;
        Ok(())
    }

    fn payload_len(&self) -> u64 {
        let len = len_text(0, KEY, &self.key);
        let len = len_u32(len, RESULT_COMPLETION_ID, self.result_completion_id);
        len_text(len, NAME, &self.name)
    }

    ghost reads = { peek_promise_command_reads };
}
