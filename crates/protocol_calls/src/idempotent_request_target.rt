use bytes::ByteStr;
use protocol_records::{all_three, both};
use protocol_wire::table::idempotent_request_target::{
    HANDLER_NAME, IDEMPOTENCY_KEY, SCOPE, SERVICE_KEY, SERVICE_NAME,
};
use protocol_wire::{
    Payload, Record, RecordType, len_optional_text, len_text, optional_text_at, put_optional_text,
    put_text, text_at,
};
use std::alloc::{AllocError, Global};

/// The invocation of a call with an idempotency key.
#[derive(Debug, Drop)]
pub struct IdempotentRequestTarget {
    pub service_name: ByteStr,
    pub service_key: Option<ByteStr>,
    pub handler_name: ByteStr,
    pub idempotency_key: ByteStr,
    pub scope: Option<ByteStr>,
}

impl Record for IdempotentRequestTarget {
    ghost use Rattle.protocol_calls.specs.Fields.{idempotent_request_target_of, idempotent_request_target_parts, IdempotentRequestTargetFits};
    ghost use Rattle.protocol_calls.specs.ReadBack.{idempotent_request_target_reads};
    ghost use Rattle.protocol_table.specs.declared.table.RecordType.TheVariants.{IdempotentRequestTarget as idempotent_request_target_type};

    ghost record_type = { idempotent_request_target_type };

    ghost of = { idempotent_request_target_of };

    ghost parts = { idempotent_request_target_parts };

    ghost fits = { IdempotentRequestTargetFits };

    fn record_type() -> RecordType {
        RecordType::IdempotentRequestTarget
    }

    fn select(alloc: Global, payload: &Payload<'_>, levels: u32) -> Result<Self, AllocError> {
        let names = all_three(
            text_at(alloc, payload, SERVICE_NAME),
            text_at(alloc, payload, HANDLER_NAME),
            text_at(alloc, payload, IDEMPOTENCY_KEY),
        );
        let options = both(
            optional_text_at(alloc, payload, SERVICE_KEY),
            optional_text_at(alloc, payload, SCOPE),
        );
        let ((service_name, handler_name, idempotency_key), (service_key, scope)) = both(
            names, options,
        )?;
        Ok(IdempotentRequestTarget {
            service_name,
            service_key,
            handler_name,
            idempotency_key,
            scope,
        })
    }

    fn spell(&self, alloc: Global, out: &mut Vec<u8>) -> Result<(), AllocError> {
        put_text(out, SERVICE_NAME, &self.service_name)?;
        put_optional_text(out, SERVICE_KEY, &self.service_key)?;
        put_text(out, HANDLER_NAME, &self.handler_name)?;
        put_text(out, IDEMPOTENCY_KEY, &self.idempotency_key)?;
        put_optional_text(out, SCOPE, &self.scope)?;
        Ok(())
    }

    fn payload_len(&self) -> u64 {
        let len = len_text(0, SERVICE_NAME, &self.service_name);
        let len = len_optional_text(len, SERVICE_KEY, &self.service_key);
        let len = len_text(len, HANDLER_NAME, &self.handler_name);
        let len = len_text(len, IDEMPOTENCY_KEY, &self.idempotency_key);
        len_optional_text(len, SCOPE, &self.scope)
    }

    ghost reads = { idempotent_request_target_reads };
}
