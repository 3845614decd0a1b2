use bytes::ByteStr;
use protocol_records::all_three;
use protocol_wire::table::workflow_target::{SCOPE, WORKFLOW_KEY, WORKFLOW_NAME};
use protocol_wire::{
    Payload, Record, RecordType, len_optional_text, len_text, optional_text_at, put_optional_text,
    put_text, text_at,
};
use std::alloc::{AllocError, Global};

/// The invocation of a workflow.
#[derive(Debug, Drop)]
pub struct WorkflowTarget {
    pub workflow_name: ByteStr,
    pub workflow_key: ByteStr,
    pub scope: Option<ByteStr>,
}

impl Record for WorkflowTarget {
    ghost use Rattle.protocol_calls.specs.Fields.{workflow_target_of, workflow_target_parts, WorkflowTargetFits};
    ghost use Rattle.protocol_calls.specs.ReadBack.{workflow_target_reads};
    ghost use Rattle.protocol_table.specs.declared.table.RecordType.TheVariants.{WorkflowTarget as workflow_target_type};

    ghost record_type = { workflow_target_type };

    ghost of = { workflow_target_of };

    ghost parts = { workflow_target_parts };

    ghost fits = { WorkflowTargetFits };

    fn record_type() -> RecordType {
        RecordType::WorkflowTarget
    }

    fn select(alloc: Global, payload: &Payload<'_>, levels: u32) -> Result<Self, AllocError> {
        let (workflow_name, workflow_key, scope) = all_three(
            text_at(alloc, payload, WORKFLOW_NAME),
            text_at(alloc, payload, WORKFLOW_KEY),
            optional_text_at(alloc, payload, SCOPE),
        )?;
        Ok(WorkflowTarget {
            workflow_name,
            workflow_key,
            scope,
        })
    }

    fn spell(&self, alloc: Global, out: &mut Vec<u8>) -> Result<(), AllocError> {
        put_text(out, WORKFLOW_NAME, &self.workflow_name)?;
        put_text(out, WORKFLOW_KEY, &self.workflow_key)?;
        put_optional_text(out, SCOPE, &self.scope)?;
        Ok(())
    }

    fn payload_len(&self) -> u64 {
        let len = len_text(0, WORKFLOW_NAME, &self.workflow_name);
        let len = len_text(len, WORKFLOW_KEY, &self.workflow_key);
        len_optional_text(len, SCOPE, &self.scope)
    }

    ghost reads = { workflow_target_reads };
}
