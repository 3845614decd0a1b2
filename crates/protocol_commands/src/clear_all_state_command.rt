use bytes::ByteStr;
use protocol_wire::table::clear_all_state_command::NAME;
use protocol_wire::{Payload, Record, RecordType, len_text, put_text, text_at};
use std::alloc::{AllocError, Global};

/// The command that clears the object's state.
#[derive(Debug, Drop)]
pub struct ClearAllStateCommandMessage {
    pub name: ByteStr,
}

impl Record for ClearAllStateCommandMessage {
    ghost use Rattle.protocol_commands.specs.Fields.{clear_all_state_command_of, clear_all_state_command_parts, ClearAllStateCommandFits};
    ghost use Rattle.protocol_commands.specs.ReadBack.{clear_all_state_command_reads};
    ghost use Rattle.protocol_table.specs.declared.table.RecordType.TheVariants.{ClearAllStateCommand as clear_all_state_command_type};

    ghost record_type = { clear_all_state_command_type };

    ghost of = { clear_all_state_command_of };

    ghost parts = { clear_all_state_command_parts };

    ghost fits = { ClearAllStateCommandFits };

    fn record_type() -> RecordType {
        RecordType::ClearAllStateCommand
    }

    fn select(alloc: Global, payload: &Payload<'_>, levels: u32) -> Result<Self, AllocError> {
        Ok(ClearAllStateCommandMessage {
            name: text_at(alloc, payload, NAME)?,
        })
    }

    fn spell(&self, alloc: Global, out: &mut Vec<u8>) -> Result<(), AllocError> {
        put_text(out, NAME, &self.name)?;
        Ok(())
    }

    fn payload_len(&self) -> u64 {
        len_text(0, NAME, &self.name)
    }

    ghost reads = { clear_all_state_command_reads };
}
