// The command of a run, and what is kept of it.
ghost use Rattle.std.specs.Prelude.{◌≡◌, None, IfOk};
ghost use Rattle.journal_model.specs.Refusal.{refusal_of};
ghost use Rattle.protocol_types.specs.declared.message_type.MessageType.TheVariants.{RunCommand};
ghost use Rattle.vm_awaits.specs.Calls.{has_come};
ghost use Rattle.vm_awaits.specs.Views.{results_of};
ghost use Rattle.vm_calls.specs.Words.{Call, Answer, Invocation, Machine};
ghost use Rattle.vm_calls.specs.Active.{Sees, IsAtCommand};
ghost use Rattle.vm_calls.specs.CommandCalls.{MakesCommand};
ghost use Rattle.vm_calls.specs.SpentReplay.{IsSpent, FailsSpent};
ghost use Rattle.vm_calls.specs.MismatchedCommands.{FindsAs};
ghost use Rattle.vm_proposals.specs.RunRegistration.{last_run_asked, Inserts, Keeps, KeepsRun, called};

use bytes::ByteStr;
use journal_model::NotificationHandle;
use protocol_commands::RunCommandMessage;
use protocol_types::MessageType;
use std::alloc::{AllocError, Global};
use vm_calls::{Active, CallError, or_empty};
use vm_context::Journal;
use vm_refusals::RunHandle;
use vm_runs::RunState;

// The body of a run is to be executed, whose command is the last that was asked for.
fn insert(
    runs: &mut RunState,
    journal: &Journal,
    handle: NotificationHandle,
    completion: u32,
) -> Result<(), AllocError>
    ensures { Inserts handle (last_run_asked completion journal.now) runs.old result runs.new }
{
    let command = journal.last_command_metadata()?;
    let name = or_empty(command.name);
    runs.insert_run_to_execute(handle, completion, command.index, name)
}

// Keeps such a run where its outcome has not come. Answers whether it has.
fn keep(
    runs: &mut RunState,
    active: &Active,
    handle: NotificationHandle,
    completion: u32,
) -> Result<bool, AllocError>
    ensures { Keeps (has_come completion (results_of active.now.results)) handle (last_run_asked completion active.now.journal) runs.old result runs.new }
{
    if active.results.has_come(completion) {
        return Ok(true);
    }
    match insert(runs, &active.journal, handle, completion) {
        Ok(()) => Ok(false),
        Err(refused) => Err(refused),
    }
}

// A call whose outcome is known, or is not.
fn called(
    known: bool,
    made: Result<NotificationHandle, CallError<RunCommandMessage>>,
) -> Result<RunHandle, CallError<RunCommandMessage>>
    ensures { result ≡ called known made }
{
    match made {
        Ok(handle) => Ok(RunHandle {
            replayed: known,
            handle,
        }),
        Err(error) => Err(error),
    }
}

/// Calls a run: the handle's notification brings its outcome. What is kept of it is kept before its command is put, so that nothing is
/// written where memory is refused for that.
pub fn run(
    active: &mut Active,
    runs: &mut RunState,
    alloc: Global,
    checks_off: bool,
    name: ByteStr,
) -> Result<RunHandle, CallError<RunCommandMessage>>
    ensures made { (given : Invocation) (m : Machine) → refusal_of given.version (Call.Run name) ≡ None → Sees given active.old m
        → MakesCommand checks_off given m (Call.Run name) (λ run. Answer.Handle run.handle) active.old result active.new }
    ensures keeps { KeepsRun name active.old runs.old result runs.new }
    ensures spent { IsSpent active.old → FailsSpent 1 active.old result active.new }
    ensures found { FindsAs RunCommand active.old result active.new }
    ensures told { IsAtCommand RunCommand name active.old.journal active.new.journal }
{
    let (name, result_completion_id, handle) = active.begin(MessageType::RunCommand, name)?;
    match keep(runs, active, handle, result_completion_id) {
        Ok(known) => {
            let command = RunCommandMessage {
                result_completion_id,
                name,
            };
            let made = active.put_completable(alloc, command, checks_off, handle);
            called(known, made)
        }
        Err(_) => {
            drop(name);
            Err(CallError::OutOfMemory)
        }
    }
}
