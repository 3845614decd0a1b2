use bytes::Bytes;
use protocol_wire::table::get_state_ephemeral_command::{EPHEMERAL_COMPLETION_ID, KEY};
use protocol_wire::{
    Payload, Record, RecordType, bytes_at, len_bytes, len_u32, put_bytes, put_u32, u32_at,
};
use std::alloc::{AllocError, Global};

/// A read of the object's state that is not recorded.
#[derive(Debug, Drop)]
pub struct GetStateEphemeralCommandMessage {
    /// The number that the answer will carry.
    pub ephemeral_completion_id: u32,
    pub key: Bytes,
}

impl Record for GetStateEphemeralCommandMessage {
    ghost use Rattle.protocol_controls.specs.GetStateEphemeralCommand.{get_state_ephemeral_command_of, get_state_ephemeral_command_parts, GetStateEphemeralCommandFits};
    ghost use Rattle.protocol_controls.specs.ReadBack.{get_state_ephemeral_command_reads};
    ghost use Rattle.protocol_table.specs.declared.table.RecordType.TheVariants.{GetStateEphemeralCommand as get_state_ephemeral_command_type};

    ghost record_type = { get_state_ephemeral_command_type };

    ghost of = { get_state_ephemeral_command_of };

    ghost parts = { get_state_ephemeral_command_parts };

    ghost fits = { GetStateEphemeralCommandFits };

    fn record_type() -> RecordType {
        RecordType::GetStateEphemeralCommand
    }

    fn select(alloc: Global, payload: &Payload<'_>, levels: u32) -> Result<Self, AllocError> {
        Ok(GetStateEphemeralCommandMessage {
            ephemeral_completion_id: u32_at(payload, EPHEMERAL_COMPLETION_ID),
            key: bytes_at(alloc, payload, KEY)?,
        })
    }

    fn spell(&self, alloc: Global, out: &mut Vec<u8>) -> Result<(), AllocError> {
        put_u32(out, EPHEMERAL_COMPLETION_ID, self.ephemeral_completion_id)?;
        put_bytes(out, KEY, &self.key)?;
        Ok(())
    }

    fn payload_len(&self) -> u64 {
        let len = len_u32(0, EPHEMERAL_COMPLETION_ID, self.ephemeral_completion_id);
        len_bytes(len, KEY, &self.key)
    }

    ghost reads = { get_state_ephemeral_command_reads };
}
