use bytes::ByteStr;
use protocol_wire::table::run_command::{NAME, RESULT_COMPLETION_ID};
use protocol_wire::{
    Payload, Record, RecordType, len_text, len_u32, put_text, put_u32, text_at, u32_at,
};
use std::alloc::{AllocError, Global};

/// The command of an effect that the attempt itself carries out.
#[derive(Debug, Drop)]
pub struct RunCommandMessage {
    /// The completion id that the command's notification will carry.
    pub result_completion_id: u32,
    pub name: ByteStr,
}

impl Record for RunCommandMessage {
    ghost use Rattle.protocol_commands.specs.Fields.{run_command_of, run_command_parts, RunCommandFits};
    ghost use Rattle.protocol_commands.specs.ReadBack.{run_command_reads};
    ghost use Rattle.protocol_table.specs.declared.table.RecordType.TheVariants.{RunCommand as run_command_type};

    ghost record_type = { run_command_type };

    ghost of = { run_command_of };

    ghost parts = { run_command_parts };

    ghost fits = { RunCommandFits };

    fn record_type() -> RecordType {
        RecordType::RunCommand
    }

    fn select(alloc: Global, payload: &Payload<'_>, levels: u32) -> Result<Self, AllocError> {
        Ok(RunCommandMessage {
            result_completion_id: u32_at(payload, RESULT_COMPLETION_ID),
            name: text_at(alloc, payload, NAME)?,
        })
    }

    fn spell(&self, alloc: Global, out: &mut Vec<u8>) -> Result<(), AllocError> {
        put_u32(out, RESULT_COMPLETION_ID, self.result_completion_id)?;
        put_text(out, NAME, &self.name)?;
        Ok(())
    }

    fn payload_len(&self) -> u64 {
        let len = len_u32(0, RESULT_COMPLETION_ID, self.result_completion_id);
        len_text(len, NAME, &self.name)
    }

    ghost reads = { run_command_reads };
}
