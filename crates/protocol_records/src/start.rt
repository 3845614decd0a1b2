use crate::gather::all_three;
use bytes::{ByteStr, Bytes};
use protocol_wire::table::{start, state_entry};
use protocol_wire::{
    Payload, Record, RecordType, bool_at, bytes_at, len_bool, len_bytes, len_optional_text,
    len_records, len_text, len_u32, len_u64, optional_text_at, put_bool, put_bytes,
    put_optional_text, put_records, put_text, put_u32, put_u64, records_at, text_at, u32_at,
    u64_at,
};
use sequence::Sequence;
use std::alloc::{AllocError, Global};

/// A key of the object's state with its value, at the start.
#[derive(Debug, Drop)]
pub struct StateEntry {
    pub key: Bytes,
    pub value: Bytes,
}

impl Record for StateEntry {
    ghost use Rattle.protocol_records.specs.StateEntry.{state_entry_of, state_entry_parts, StateEntryFits};
    ghost use Rattle.protocol_records.specs.ReadBack.{state_entry_reads};
    ghost use Rattle.protocol_table.specs.declared.table.RecordType.TheVariants.{StateEntry as state_entry_type};

    ghost record_type = { state_entry_type };

    ghost of = { state_entry_of };

    ghost parts = { state_entry_parts };

    ghost fits = { StateEntryFits };

    fn record_type() -> RecordType {
        RecordType::StateEntry
    }

    fn select(alloc: Global, payload: &Payload<'_>, levels: u32) -> Result<Self, AllocError> {
        Ok(StateEntry {
            key: bytes_at(alloc, payload, state_entry::KEY)?,
            value: bytes_at(alloc, payload, state_entry::VALUE)?,
        })
    }

    fn spell(&self, alloc: Global, out: &mut Vec<u8>) -> Result<(), AllocError> {
        put_bytes(out, state_entry::KEY, &self.key)?;
        put_bytes(out, state_entry::VALUE, &self.value)?;
        Ok(())
    }

    fn payload_len(&self) -> u64 {
        let len = len_bytes(0, state_entry::KEY, &self.key);
        len_bytes(len, state_entry::VALUE, &self.value)
    }

    ghost reads = { state_entry_reads };
}

/// The start of an attempt: what the runtime says of the invocation before the known entries.
#[derive(Debug, Drop)]
pub struct StartMessage {
    pub id: Bytes,
    /// The invocation id as a text.
    pub debug_id: ByteStr,
    /// How many entries of the journal follow, the input among them.
    pub known_entries: u32,
    /// The state that is known, each key at most once.
    pub state_map: Sequence<StateEntry>,
    /// Whether `state_map` may lack keys of the state.
    pub partial_state: bool,
    /// The key of the object.
    pub key: ByteStr,
    pub retry_count_since_last_stored_entry: u32,
    /// In milliseconds.
    pub duration_since_last_stored_entry: u64,
    pub random_seed: u64,
    pub scope: Option<ByteStr>,
    pub limit_key: Option<ByteStr>,
    pub idempotency_key: Option<ByteStr>,
}

impl Record for StartMessage {
    ghost use Rattle.protocol_records.specs.Start.{start_message_of, start_parts, StartFits};
    ghost use Rattle.protocol_records.specs.ReadBack.{start_reads};
    ghost use Rattle.protocol_table.specs.declared.table.RecordType.TheVariants.{Start as start_type};

    ghost record_type = { start_type };

    ghost of = { start_message_of };

    ghost parts = { start_parts };

    ghost fits = { StartFits };

    fn record_type() -> RecordType {
        RecordType::Start
    }

    fn select(alloc: Global, payload: &Payload<'_>, levels: u32) -> Result<Self, AllocError> {
        let names = all_three(
            bytes_at(alloc, payload, start::ID),
            text_at(alloc, payload, start::DEBUG_ID),
            text_at(alloc, payload, start::KEY),
        );
        let options = all_three(
            optional_text_at(alloc, payload, start::SCOPE),
            optional_text_at(alloc, payload, start::LIMIT_KEY),
            optional_text_at(alloc, payload, start::IDEMPOTENCY_KEY),
        );
        let state_map = records_at(alloc, payload, start::STATE_MAP, levels);
        let ((id, debug_id, key), (scope, limit_key, idempotency_key), state_map) = all_three(
            names, options, state_map,
        )?;
        Ok(StartMessage {
            id,
            debug_id,
            known_entries: u32_at(payload, start::KNOWN_ENTRIES),
            state_map,
            partial_state: bool_at(payload, start::PARTIAL_STATE),
            key,
            retry_count_since_last_stored_entry: u32_at(
                payload,
                start::RETRY_COUNT_SINCE_LAST_STORED_ENTRY,
            ),
            duration_since_last_stored_entry: u64_at(
                payload,
                start::DURATION_SINCE_LAST_STORED_ENTRY,
            ),
            random_seed: u64_at(payload, start::RANDOM_SEED),
            scope,
            limit_key,
            idempotency_key,
        })
    }

    fn spell(&self, alloc: Global, out: &mut Vec<u8>) -> Result<(), AllocError> {
        put_bytes(out, start::ID, &self.id)?;
        put_text(out, start::DEBUG_ID, &self.debug_id)?;
        put_u32(out, start::KNOWN_ENTRIES, self.known_entries)?;
        put_records(alloc, out, start::STATE_MAP, &self.state_map)?;
        put_bool(out, start::PARTIAL_STATE, self.partial_state)?;
        put_text(out, start::KEY, &self.key)?;
        put_u32(
            out,
            start::RETRY_COUNT_SINCE_LAST_STORED_ENTRY,
            self.retry_count_since_last_stored_entry,
        )?;
        put_u64(
            out,
            start::DURATION_SINCE_LAST_STORED_ENTRY,
            self.duration_since_last_stored_entry,
        )?;
        put_u64(out, start::RANDOM_SEED, self.random_seed)?;
        put_optional_text(out, start::SCOPE, &self.scope)?;
        put_optional_text(out, start::LIMIT_KEY, &self.limit_key)?;
        put_optional_text(out, start::IDEMPOTENCY_KEY, &self.idempotency_key)?;
        Ok(())
    }

    fn payload_len(&self) -> u64 {
        let len = len_bytes(0, start::ID, &self.id);
        let len = len_text(len, start::DEBUG_ID, &self.debug_id);
        let len = len_u32(len, start::KNOWN_ENTRIES, self.known_entries);
        let len = len_records(len, start::STATE_MAP, &self.state_map);
        let len = len_bool(len, start::PARTIAL_STATE, self.partial_state);
        let len = len_text(len, start::KEY, &self.key);
        let len = len_u32(
            len,
            start::RETRY_COUNT_SINCE_LAST_STORED_ENTRY,
            self.retry_count_since_last_stored_entry,
        );
        let len = len_u64(
            len,
            start::DURATION_SINCE_LAST_STORED_ENTRY,
            self.duration_since_last_stored_entry,
        );
        let len = len_u64(len, start::RANDOM_SEED, self.random_seed);
        let len = len_optional_text(len, start::SCOPE, &self.scope);
        let len = len_optional_text(len, start::LIMIT_KEY, &self.limit_key);
        len_optional_text(len, start::IDEMPOTENCY_KEY, &self.idempotency_key)
    }

    ghost reads = { start_reads };
}
