use bytes::{ByteStr, Bytes};
use protocol_records::{Header, all_three};
use protocol_wire::table::one_way_call_command::{
    HANDLER_NAME, HEADERS, IDEMPOTENCY_KEY, INVOCATION_ID_NOTIFICATION_IDX, INVOKE_TIME, KEY,
    LIMIT_KEY, NAME, PARAMETER, SCOPE, SERVICE_NAME,
};
use protocol_wire::{
    Payload, Record, RecordType, bytes_at, len_bytes, len_optional_text, len_records, len_text,
    len_u32, len_u64, optional_text_at, put_bytes, put_optional_text, put_records, put_text,
    put_u32, put_u64, records_at, text_at, u32_at, u64_at,
};
use sequence::Sequence;
use std::alloc::{AllocError, Global};

/// The command that calls a handler and waits for no answer.
#[derive(Debug, Drop)]
pub struct OneWayCallCommandMessage {
    pub service_name: ByteStr,
    pub handler_name: ByteStr,
    pub parameter: Bytes,
    pub headers: Sequence<Header>,
    /// The key of the object; empty where the service has none.
    pub key: ByteStr,
    pub idempotency_key: Option<ByteStr>,
    pub scope: Option<ByteStr>,
    pub limit_key: Option<ByteStr>,
    /// The moment from which on it may run, in milliseconds; 0 where that is at once.
    pub invoke_time: u64,
    /// The completion id of the notification that tells the invocation's id.
    pub invocation_id_notification_idx: u32,
    pub name: ByteStr,
}

impl Record for OneWayCallCommandMessage {
    ghost use Rattle.protocol_calls.specs.Fields.{one_way_call_command_of, one_way_call_command_parts, OneWayCallCommandFits};
    ghost use Rattle.protocol_calls.specs.ReadBack.{one_way_call_command_reads};
    ghost use Rattle.protocol_table.specs.declared.table.RecordType.TheVariants.{OneWayCallCommand as one_way_call_command_type};

    ghost record_type = { one_way_call_command_type };

    ghost of = { one_way_call_command_of };

    ghost parts = { one_way_call_command_parts };

    ghost fits = { OneWayCallCommandFits };

    fn record_type() -> RecordType {
        RecordType::OneWayCallCommand
    }

    fn select(alloc: Global, payload: &Payload<'_>, levels: u32) -> Result<Self, AllocError> {
        let names = all_three(
            text_at(alloc, payload, SERVICE_NAME),
            text_at(alloc, payload, HANDLER_NAME),
            text_at(alloc, payload, KEY),
        );
        let contents = all_three(
            bytes_at(alloc, payload, PARAMETER),
            records_at(alloc, payload, HEADERS, levels),
            text_at(alloc, payload, NAME),
        );
        let options = all_three(
            optional_text_at(alloc, payload, IDEMPOTENCY_KEY),
            optional_text_at(alloc, payload, SCOPE),
            optional_text_at(alloc, payload, LIMIT_KEY),
        );
        let (
            (service_name, handler_name, key),
            (parameter, headers, name),
            (idempotency_key, scope, limit_key),
        ) = all_three(names, contents, options)?;
        Ok(OneWayCallCommandMessage {
            service_name,
            handler_name,
            parameter,
            headers,
            key,
            idempotency_key,
            scope,
            limit_key,
            invoke_time: u64_at(payload, INVOKE_TIME),
            invocation_id_notification_idx: u32_at(payload, INVOCATION_ID_NOTIFICATION_IDX),
            name,
        })
    }

    fn spell(&self, alloc: Global, out: &mut Vec<u8>) -> Result<(), AllocError> {
        put_text(out, SERVICE_NAME, &self.service_name)?;
        put_text(out, HANDLER_NAME, &self.handler_name)?;
        put_bytes(out, PARAMETER, &self.parameter)?;
        put_records(alloc, out, HEADERS, &self.headers)?;
        put_text(out, KEY, &self.key)?;
        put_optional_text(out, IDEMPOTENCY_KEY, &self.idempotency_key)?;
        put_optional_text(out, SCOPE, &self.scope)?;
        put_optional_text(out, LIMIT_KEY, &self.limit_key)?;
        put_u64(out, INVOKE_TIME, self.invoke_time)?;
        put_u32(
            out,
            INVOCATION_ID_NOTIFICATION_IDX,
            self.invocation_id_notification_idx,
        )?;
        put_text(out, NAME, &self.name)?;
        Ok(())
    }

    fn payload_len(&self) -> u64 {
        let len = len_text(0, SERVICE_NAME, &self.service_name);
        let len = len_text(len, HANDLER_NAME, &self.handler_name);
        let len = len_bytes(len, PARAMETER, &self.parameter);
        let len = len_records(len, HEADERS, &self.headers);
        let len = len_text(len, KEY, &self.key);
        let len = len_optional_text(len, IDEMPOTENCY_KEY, &self.idempotency_key);
        let len = len_optional_text(len, SCOPE, &self.scope);
        let len = len_optional_text(len, LIMIT_KEY, &self.limit_key);
        let len = len_u64(len, INVOKE_TIME, self.invoke_time);
        let len = len_u32(
            len,
            INVOCATION_ID_NOTIFICATION_IDX,
            self.invocation_id_notification_idx,
        );
        len_text(len, NAME, &self.name)
    }

    ghost reads = { one_way_call_command_reads };
}
