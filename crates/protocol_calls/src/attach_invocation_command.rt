use crate::invocation_target::{InvocationTarget, len_target, put_target, target_at};
use bytes::ByteStr;
use protocol_records::both;
use protocol_wire::table::attach_invocation_command::{NAME, RESULT_COMPLETION_ID};
use protocol_wire::{
    Payload, Record, RecordType, len_text, len_u32, put_text, put_u32, text_at, u32_at,
};
use std::alloc::{AllocError, Global};

/// The command that waits for the answer of an invocation. The store asks for a target.
#[derive(Debug, Drop)]
pub struct AttachInvocationCommandMessage {
    pub target: Option<InvocationTarget>,
    /// The completion id that the command's notification will carry.
    pub result_completion_id: u32,
    pub name: ByteStr,
}

impl Record for AttachInvocationCommandMessage {
    ghost use Rattle.protocol_table.specs.declared.table.RecordType.TheVariants.{AttachInvocationCommand as attach_invocation_command_type};
    ghost use Rattle.protocol_calls.specs.AttachInvocationCommand.{attach_invocation_command_of, attach_invocation_command_parts, AttachInvocationCommandFits};
    ghost use Rattle.protocol_calls.specs.ReadBack.{attach_invocation_command_reads};

    ghost record_type = { attach_invocation_command_type };

    ghost of = { attach_invocation_command_of };

    ghost parts = { attach_invocation_command_parts };

    ghost fits = { AttachInvocationCommandFits };

    fn record_type() -> RecordType {
        RecordType::AttachInvocationCommand
    }

    fn select(alloc: Global, payload: &Payload<'_>, levels: u32) -> Result<Self, AllocError> {
        let (target, name) = both(
            target_at(alloc, payload, levels),
            text_at(alloc, payload, NAME),
        )?;
        Ok(AttachInvocationCommandMessage {
            target,
            result_completion_id: u32_at(payload, RESULT_COMPLETION_ID),
            name,
        })
    }

    fn spell(&self, alloc: Global, out: &mut Vec<u8>) -> Result<(), AllocError> {
        put_target(alloc, out, &self.target)?;
        put_u32(out, RESULT_COMPLETION_ID, self.result_completion_id)?;
        put_text(out, NAME, &self.name)?;
        Ok(())
    }

    fn payload_len(&self) -> u64 {
        let len = len_target(0, &self.target);
        let len = len_u32(len, RESULT_COMPLETION_ID, self.result_completion_id);
        len_text(len, NAME, &self.name)
    }

    ghost reads = { attach_invocation_command_reads };
}
