use bytes::ByteStr;
use protocol_wire::table::sleep_command::{NAME, RESULT_COMPLETION_ID, WAKE_UP_TIME};
use protocol_wire::{
    Payload, Record, RecordType, len_text, len_u32, len_u64, put_text, put_u32, put_u64, text_at,
    u32_at, u64_at,
};
use std::alloc::{AllocError, Global};

/// The command of a sleep.
#[derive(Debug, Drop)]
pub struct SleepCommandMessage {
    /// A moment, in milliseconds.
    pub wake_up_time: u64,
    /// The completion id that the sleep's notification will carry.
    pub result_completion_id: u32,
    pub name: ByteStr,
}

impl Record for SleepCommandMessage {
    ghost use Rattle.protocol_records.specs.SleepCommand.{sleep_command_of, sleep_command_parts, SleepCommandFits};
    ghost use Rattle.protocol_records.specs.ReadBack.{sleep_command_reads};
    ghost use Rattle.protocol_table.specs.declared.table.RecordType.TheVariants.{SleepCommand as sleep_command_type};

    ghost record_type = { sleep_command_type };

    ghost of = { sleep_command_of };

    ghost parts = { sleep_command_parts };

    ghost fits = { SleepCommandFits };

    fn record_type() -> RecordType {
        RecordType::SleepCommand
    }

    fn select(alloc: Global, payload: &Payload<'_>, levels: u32) -> Result<Self, AllocError> {
        Ok(SleepCommandMessage {
            wake_up_time: u64_at(payload, WAKE_UP_TIME),
            result_completion_id: u32_at(payload, RESULT_COMPLETION_ID),
            name: text_at(alloc, payload, NAME)?,
        })
    }

    fn spell(&self, alloc: Global, out: &mut Vec<u8>) -> Result<(), AllocError> {
        put_u64(out, WAKE_UP_TIME, self.wake_up_time)?;
        put_u32(out, RESULT_COMPLETION_ID, self.result_completion_id)?;
        put_text(out, NAME, &self.name)?;
        Ok(())
    }

    fn payload_len(&self) -> u64 {
        let len = len_u64(0, WAKE_UP_TIME, self.wake_up_time);
        let len = len_u32(len, RESULT_COMPLETION_ID, self.result_completion_id);
        len_text(len, NAME, &self.name)
    }

    ghost reads = { sleep_command_reads };
}
