// A machine is made of a request.
ghost use Rattle.std.specs.Prelude.{◌≡◌, IfOk, IfErr};
ghost use Rattle.vm_feeding.specs.NewMachine.{RefusalCauses, Refuses, IsMachineMade, BeginsMachine, head_of};
ghost use Rattle.vm_start.specs.FailureReport.{out_of_memory};
ghost use Rattle.vm_start.specs.Negotiation.{content_type};

use protocol_errors::{Error, MISSING_CONTENT_TYPE};
use protocol_stream::{Decoder, HeaderMap};
use protocol_types::Version;
use std::alloc::{AllocError, Global};
use std::fmt;
use vm_machine::{MachineState, about_nothing, fresh_active};
use vm_runs::RunState;
use vm_start::{
    NegotiationError, Phase, negotiate, or_out_of_memory, out_of_memory, response_head,
};
use vm_types::{EphemeralCommands, ResponseHead, VMOptions};

// Why no machine is made of the request.
fn refusal_cause<E: fmt::Debug>(
    alloc: Global,
    refused: &NegotiationError<E>,
) -> Result<Error, AllocError>
    ensures { RefusalCauses refused.now result }
{
    match refused {
        NegotiationError::OutOfMemory => Err(AllocError),
        NegotiationError::MissingContentType => Ok(MISSING_CONTENT_TYPE.into()),
        NegotiationError::UnreadableHeader(_)
        | NegotiationError::UnknownContentType(_)
        | NegotiationError::UnsupportedVersion(_) => about_nothing(alloc, refused),
    }
}

fn refuse<E: fmt::Debug + Drop>(alloc: Global, refused: NegotiationError<E>) -> Error
    ensures { Refuses refused result }
{
    let cause = refusal_cause(alloc, &refused);
    drop(refused);
    or_out_of_memory(cause)
}

// The machine, before anything has come.
fn make(alloc: Global, version: Version, options: VMOptions) -> Result<MachineState, Error>
    ensures { IsMachineMade version options result }
{
    match fresh_active(alloc, version, options.signal_delivery) {
        Err(_) => Err(out_of_memory()),
        Ok(active) => Ok(MachineState {
            alloc,
            version,
            options,
            decoder: Decoder::new(alloc),
            is_input_closed: false,
            start: None,
            phase: Phase::WaitingStart,
            active,
            reads: EphemeralCommands::new(alloc),
            runs: RunState::new(alloc),
        }),
    }
}

/// A machine for a request, of which nothing but the headers has come: it speaks the version that they name.
pub fn begin<H: HeaderMap>(
    alloc: Global,
    request_headers: &H,
    options: VMOptions,
) -> Result<MachineState, Error>
where
    H::Error: Drop,
    ensures { BeginsMachine H.Error (H.fails request_headers.now content_type) (H.text_of request_headers.now content_type) options result }
{
    match negotiate(alloc, request_headers) {
        Ok(version) => make(alloc, version, options),
        Err(refused) => Err(refuse(alloc, refused)),
    }
}

/// How the response begins. Where memory is refused for it the machine stays as it is.
pub fn get_response_head(vm: &MachineState) -> Result<ResponseHead, Error>
    ensures head { IfOk result (λ head. head ≡ head_of vm.now.version) }
    ensures memory { IfErr result (λ error. error ≡ out_of_memory) }
{
    match response_head(vm.alloc, vm.version) {
        Ok(head) => Ok(head),
        Err(_) => Err(out_of_memory()),
    }
}
