// What stands before each call: whether it is refused, and whether calls are made of the machine.
ghost use Rattle.std.specs.Prelude.{◌≡◌, Option, IfOk};
ghost use Rattle.vm_machine.specs.CallAdmission.{is_active, MissedCauses, ElsewhereCauses, IsElsewhere, Admits, Carries};
ghost use Rattle.vm_machine.specs.Steps.{IsUnexpected, IsExhausted};

use crate::{Active, IdsExhausted, MachineState, Phase, about_nothing, again, unexpected};
use bytes::ByteStr;
use protocol_errors::Error;
use protocol_types::{MessageType, Version};
use std::alloc::{AllocError, Global};
use vm_refusals::{CallRefusal, RefusalError};

/// What stands before a call.
#[derive(Debug, Drop)]
pub enum Admission {
    /// Calls are made of the machine, and this one is not refused.
    Admitted,
    /// No calls are made of the machine in its phase.
    Elsewhere,
    /// The machine fails with this, or has failed with it before.
    Stopped(Error),
}

fn is_active(phase: &Phase) -> bool
    ensures { result ≡ is_active phase.now }
{
    match phase {
        Phase::Active => true,
        Phase::WaitingStart
        | Phase::WaitingReplayEntries { .. }
        | Phase::Closed
        | Phase::Failed(_) => false,
    }
}

/// Why a call is not made where no calls are made: no number is left for the completions that it takes, or there is no such call in
/// this phase. `event` is what it is named by. The error is about no command.
pub fn missed_cause(
    alloc: Global,
    phase: &Phase,
    active: &Active,
    taken: u32,
    event: ByteStr,
) -> Result<Error, AllocError>
    ensures { IfOk result (MissedCauses taken phase.now active.now event) }
{
    if active.lacks_completions(taken) {
        drop(event);
        return about_nothing(alloc, &IdsExhausted);
    }
    unexpected(alloc, phase, active.is_replaying, event)
}

// Why a command of this type is not asked for in this phase; the error is about that command.
fn elsewhere_cause(
    alloc: Global,
    phase: &Phase,
    active: &Active,
    taken: u32,
    ty: MessageType,
) -> Result<Error, AllocError>
    ensures { IfOk result (ElsewhereCauses taken phase.now active.now ty) }
{
    let event = ByteStr::from_string(ty.to_string(alloc)?)?;
    let error = missed_cause(alloc, phase, active, taken, event)?;
    match active.journal.last_command_metadata() {
        Ok(command) => Ok(error.with_related_command_metadata(command)),
        Err(refused) => {
            drop(error);
            Err(refused)
        }
    }
}

impl MachineState {
    /// A command that takes so many completions is asked for where no calls are made: it is counted, and the machine fails.
    pub fn fail_elsewhere(&mut self, taken: u32, ty: MessageType, name: ByteStr) -> Error
        ensures { IsElsewhere taken ty name self.old result self.new }
    {
        self.active.journal.transition(ty, name);
        let cause = elsewhere_cause(self.alloc, &self.phase, &self.active, taken, ty);
        self.fail(cause)
    }

    /// No number is left for a call that puts no command: the machine fails.
    pub fn fail_exhausted(&mut self) -> Error
        ensures { IsExhausted self.old result self.new }
    {
        let cause = about_nothing(self.alloc, &IdsExhausted);
        self.fail(cause)
    }

    /// A call that puts no command is made where no calls are made: the machine fails. `event` is what the call is named by.
    pub fn fail_unexpected(&mut self, event: &'static str) -> Error
        ensures { IsUnexpected event.now self.old result self.new }
    {
        let cause = unexpected(
            self.alloc,
            &self.phase,
            self.active.is_replaying,
            ByteStr::from_static(event),
        );
        self.fail(cause)
    }

    /// What stands before each call: whether calls are made of the machine; or what it fails with, as the call is refused, or has
    /// failed with before.
    pub fn admit(&mut self, refusal: Option<RefusalError>) -> Admission
        ensures { Admits refusal self.old result self.new }
    {
        if let Some(answer) = again(&self.phase) {
            return Admission::Stopped(answer);
        }
        if let Some(refusal) = refusal {
            let cause = about_nothing(self.alloc, &refusal);
            return Admission::Stopped(self.fail(cause));
        }
        if is_active(&self.phase) {
            return Admission::Admitted;
        }
        Admission::Elsewhere
    }
}

/// Why a call is refused, with the version that is spoken. `event` is what its moment is called.
pub fn refusal_error(
    version: Version,
    refusal: Option<CallRefusal>,
    event: &'static str,
) -> Option<RefusalError>
    ensures { Carries version refusal event.now result }
{
    match refusal {
        None => None,
        Some(refusal) => Some(RefusalError {
            refusal,
            version,
            event,
        }),
    }
}
