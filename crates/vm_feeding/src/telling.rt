// An error of the host.
ghost use Rattle.std.specs.Prelude.{◌≡◌};
ghost use Rattle.vm_feeding.specs.HostErrors.{lacks_behavior, HostCauses, RelatedCauses, IsErrorTold};

use crate::failing::let_fail;
use protocol_differences::CommandRelationship;
use protocol_errors::{Error, ErrorBehavior, UnsupportedFeatureForNegotiatedVersion};
use protocol_types::{Feature, Version};
use std::alloc::{AllocError, Global};
use vm_context::Journal;
use vm_machine::{MachineState, about_nothing};

// Whether an error has a behaviour that the version cannot tell.
fn lacks_behavior(version: Version, behavior: ErrorBehavior) -> bool
    ensures { result ≡ lacks_behavior version behavior }
{
    match behavior {
        ErrorBehavior::Retry => false,
        ErrorBehavior::Pause | ErrorBehavior::Fail => {
            Feature::ErrorBehavior.is_later_than(version.number())
        }
    }
}

// The error, about the command that is named, if one is.
fn related_cause(
    journal: &Journal,
    error: Error,
    relationship: Option<CommandRelationship>,
) -> Result<Error, AllocError>
    ensures { RelatedCauses journal.now error relationship result }
{
    let Some(relationship) = relationship else {
        return Ok(error);
    };
    match journal.resolve_related_command(relationship) {
        Ok(command) => Ok(error.with_related_command_metadata(command)),
        Err(refused) => {
            drop(error);
            Err(refused)
        }
    }
}

// What a machine fails with whose host tells an error.
fn host_cause(
    alloc: Global,
    version: Version,
    journal: &Journal,
    error: Error,
    relationship: Option<CommandRelationship>,
) -> Result<Error, AllocError>
    ensures { HostCauses version journal.now error relationship result }
{
    if lacks_behavior(version, error.behavior()) {
        drop(error);
        drop(relationship);
        let minimum = Feature::ErrorBehavior.first_version();
        let lack = UnsupportedFeatureForNegotiatedVersion::new("error behavior", version, minimum);
        return about_nothing(alloc, &lack);
    }
    related_cause(journal, error, relationship)
}

/// The host has come upon an error, about the command that is named, if one is: the machine fails with it. Where the error has a
/// behaviour that the version cannot tell, the machine fails with that in place of it.
pub fn notify_error(vm: &mut MachineState, error: Error, relationship: Option<CommandRelationship>)
    ensures { IsErrorTold error relationship vm.old vm.new }
{
    let cause = host_cause(
        vm.alloc,
        vm.version,
        &vm.active.journal,
        error,
        relationship,
    );
    let_fail(vm, cause);
}
