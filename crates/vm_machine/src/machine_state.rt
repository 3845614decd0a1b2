// All that a machine keeps.
use crate::{Active, Phase};
use protocol_records::StartMessage;
use protocol_stream::Decoder;
use protocol_types::Version;
use std::alloc::Global;
use vm_runs::RunState;
use vm_types::{EphemeralCommands, VMOptions};

/// All that a machine keeps.
#[derive(Drop)]
pub struct MachineState {
    pub alloc: Global,
    /// The version of the protocol that it speaks.
    pub version: Version,
    pub options: VMOptions,
    /// The bytes that came and were not read.
    pub decoder: Decoder,
    pub is_input_closed: bool,
    /// The start of its attempt, without the state that it shows.
    pub start: Option<StartMessage>,
    pub phase: Phase,
    /// What is kept for the calls; before the first and behind the last it is kept all the same.
    pub active: Active,
    pub reads: EphemeralCommands,
    /// The runs that were called, until their outcomes are proposed and acknowledged.
    pub runs: RunState,
}
