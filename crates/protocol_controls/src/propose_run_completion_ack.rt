use protocol_wire::table::propose_run_completion_ack::COMPLETION_ID;
use protocol_wire::{Payload, Record, RecordType, len_u32, put_u32, u32_at};
use std::alloc::{AllocError, Global};

/// The proposal of the run with this completion id is recorded.
#[derive(Debug, Drop)]
pub struct ProposeRunCompletionAckMessage {
    pub completion_id: u32,
}

impl Record for ProposeRunCompletionAckMessage {
    ghost use Rattle.protocol_controls.specs.ProposeRunCompletionAck.{propose_run_completion_ack_of, propose_run_completion_ack_parts, ProposeRunCompletionAckFits};
    ghost use Rattle.protocol_controls.specs.ReadBack.{propose_run_completion_ack_reads};
    ghost use Rattle.protocol_table.specs.declared.table.RecordType.TheVariants.{ProposeRunCompletionAck as propose_run_completion_ack_type};

    ghost record_type = { propose_run_completion_ack_type };

    ghost of = { propose_run_completion_ack_of };

    ghost parts = { propose_run_completion_ack_parts };

    ghost fits = { ProposeRunCompletionAckFits };

    fn record_type() -> RecordType {
        RecordType::ProposeRunCompletionAck
    }

    fn select(alloc: Global, payload: &Payload<'_>, levels: u32) -> Result<Self, AllocError> {
        Ok(ProposeRunCompletionAckMessage {
            completion_id: u32_at(payload, COMPLETION_ID),
        })
    }

    fn spell(&self, alloc: Global, out: &mut Vec<u8>) -> Result<(), AllocError> {
        put_u32(out, COMPLETION_ID, self.completion_id)?;
        Ok(())
    }

    fn payload_len(&self) -> u64 {
        len_u32(0, COMPLETION_ID, self.completion_id)
    }

    ghost reads = { propose_run_completion_ack_reads };
}
