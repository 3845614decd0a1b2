// Why a run's machine fails.
ghost use Rattle.std.specs.Prelude.{◌≡◌, IfOk};
ghost use Rattle.protocol_types.specs.Feature.{first_version};
ghost use Rattle.vm_machine.specs.Steps.{FailsBy};
ghost use Rattle.vm_proposals.specs.RunFailureCauses.{LacksMemoryToPropose, IsUnsupported, unknown_run_error, feature_name_of, run_told, with_delay};

use bytes::ByteStr;
use protocol_errors::{CommandMetadata, Error, UnsupportedFeatureForNegotiatedVersion, codes};
use protocol_types::{Feature, MessageType};
use std::alloc::AllocError;
use std::time::Duration;
use vm_machine::{MachineState, about_nothing};
use vm_runs::Run;

/// Fails for want of memory.
pub(crate) fn fail_for_memory(vm: &mut MachineState) -> Error
    ensures { LacksMemoryToPropose vm.old result vm.new }
{
    vm.fail(Err(AllocError))
}

/// Fails, since the handle is that of no run whose outcome is to be proposed.
pub(crate) fn unknown_run() -> Error
    ensures { result ≡ unknown_run_error }
{
    Error::new(
        codes::INTERNAL,
        ByteStr::from_static("The outcome of a run is proposed for a handle of no run"),
    )
}

// What errors call a feature.
fn name_of(feature: Feature) -> &'static str
    ensures { result.now ≡ feature_name_of feature }
{
    match feature {
        Feature::FailureMetadata => "terminal error metadata",
        _ => "pause",
    }
}

/// Fails, since the version lacks what the outcome, or its policy, asks for.
pub(crate) fn fail_unsupported(vm: &mut MachineState, feature: Feature) -> Error
    ensures { IsUnsupported feature vm.old result vm.new }
{
    let minimum = feature.first_version();
    let lack = UnsupportedFeatureForNegotiatedVersion::new(name_of(feature), vm.version, minimum);
    let cause = about_nothing(vm.alloc, &lack);
    vm.fail(cause)
}

/// The command of a run, as an error names it.
pub fn run_told(run: &Run) -> Result<CommandMetadata, AllocError>
    ensures { IfOk result (λ told. told ≡ run_told run.now) }
{
    Ok(CommandMetadata::new_named(
        run.command_name.clone()?,
        run.command_index,
        MessageType::RunCommand,
    ))
}

/// The error with this delay, or with none, in place of one that it tells.
pub(crate) fn with_delay(error: Error, delay: Option<Duration>) -> Error
    ensures { result ≡ with_delay delay error }
{
    error.with_next_retry_delay(delay)
}
