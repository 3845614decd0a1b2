use crate::invocation_target::{InvocationTarget, len_target, put_target, target_at};
use bytes::ByteStr;
use protocol_records::both;
use protocol_wire::table::get_invocation_output_command::{NAME, RESULT_COMPLETION_ID};
use protocol_wire::{
    Payload, Record, RecordType, len_text, len_u32, put_text, put_u32, text_at, u32_at,
};
use std::alloc::{AllocError, Global};

/// The command that looks whether an invocation has answered. The store asks for a target.
#[derive(Debug, Drop)]
pub struct GetInvocationOutputCommandMessage {
    pub target: Option<InvocationTarget>,
    /// The completion id that the command's notification will carry.
    pub result_completion_id: u32,
    pub name: ByteStr,
}

impl Record for GetInvocationOutputCommandMessage {
    ghost use Rattle.protocol_table.specs.declared.table.RecordType.TheVariants.{GetInvocationOutputCommand as get_invocation_output_command_type};
    ghost use Rattle.protocol_calls.specs.GetInvocationOutputCommand.{get_invocation_output_command_of, get_invocation_output_command_parts, GetInvocationOutputCommandFits};
    ghost use Rattle.protocol_calls.specs.ReadBack.{get_invocation_output_command_reads};

    ghost record_type = { get_invocation_output_command_type };

    ghost of = { get_invocation_output_command_of };

    ghost parts = { get_invocation_output_command_parts };

    ghost fits = { GetInvocationOutputCommandFits };

    fn record_type() -> RecordType {
        RecordType::GetInvocationOutputCommand
    }

    fn select(alloc: Global, payload: &Payload<'_>, levels: u32) -> Result<Self, AllocError> {
        let (target, name) = both(
            target_at(alloc, payload, levels),
            text_at(alloc, payload, NAME),
        )?;
        Ok(GetInvocationOutputCommandMessage {
            target,
            result_completion_id: u32_at(payload, RESULT_COMPLETION_ID),
            name,
        })
    }

    fn spell(&self, alloc: Global, out: &mut Vec<u8>) -> Result<(), AllocError> {
        put_target(alloc, out, &self.target)?;
        put_u32(out, RESULT_COMPLETION_ID, self.result_completion_id)?;
        put_text(out, NAME, &self.name)?;
        Ok(())
    }

    fn payload_len(&self) -> u64 {
        let len = len_target(0, &self.target);
        let len = len_u32(len, RESULT_COMPLETION_ID, self.result_completion_id);
        len_text(len, NAME, &self.name)
    }

    ghost reads = { get_invocation_output_command_reads };
}
