// What an attempt that waits behind the journal writes.
ghost use Rattle.std.specs.Prelude.{◌≡◌, true, false, IfOk, IfErr};
ghost use Rattle.journal_model.specs.declared.notification.NotificationId.{NotificationId};
ghost use Rattle.journal_model.specs.AwaitTree.{AwaitTree};
ghost use Rattle.journal_model.specs.Spelling.{awaiting_on_payload};
ghost use Rattle.protocol_stream.specs.Records.{future_record};
ghost use Rattle.protocol_stream.specs.declared.encoder.EncodingError.TheVariants.{OutOfMemory};
ghost use Rattle.protocol_types.specs.declared.message_type.MessageType.TheVariants.{Suspension, AwaitingOn};
ghost use Rattle.vm_awaits.specs.Views.{slots_of};
ghost use Rattle.attempt_model.specs.Results.{Slots};
ghost use Rattle.vm_waiting.specs.WaitsFor.{ids_over, awaited_ids, waits_for_any};
ghost use Rattle.vm_waiting.specs.SuspensionFrames.{suspension_payload_in, is_suspension_too_deep, WritesFrame, IsSuspensionWritten, WritesAwaited, Suspends, allows_telling, tells_awaiting, TellsIf};

use crate::WaitsFor;
use protocol_records::{AwaitingOnMessage, Future, SuspensionMessage};
use protocol_stream::{EncodingError, Feature, Version};
use std::alloc::Global;
use vm_awaits::AsyncResultsState;
use vm_calls::Active;
use vm_context::Output;
use vm_types::AwaitingOnPolicy;

/// Why what is waited for is not told.
#[derive(Clone, Copy, Debug, PartialEq, Eq)]
pub enum TellError {
    /// It is nested deeper than a frame can tell.
    TooDeep,
    Encoding(EncodingError),
}

// What is waited for, as a record over ids.
fn record_of(
    results: &AsyncResultsState,
    alloc: Global,
    waits: WaitsFor,
) -> Result<Future, EncodingError>
    ensures told { IfOk result (λ told. told ≡ future_record (ids_over (slots_of results.now) waits)) }
    ensures memory { IfErr result (λ error. error ≡ OutOfMemory) }
{
    let told = waits.to_record(alloc, results);
    drop(waits);
    match told {
        Ok(told) => Ok(told),
        Err(_) => Err(EncodingError::OutOfMemory),
    }
}

fn write_suspension(
    output: &mut Output,
    alloc: Global,
    awaiting_on: Future,
) -> Result<(), EncodingError>
    ensures { (tree : AwaitTree NotificationId) → awaiting_on ≡ future_record tree
        → WritesFrame Suspension (suspension_payload_in output.old.version tree) output.old result output.new }
{
    let message = SuspensionMessage {
        awaiting_on: Some(awaiting_on),
    };
    let sent = output.send(alloc, &message);
    drop(message);
    sent
}

fn write_awaiting_on(output: &mut Output, alloc: Global, told: Future) -> Result<(), EncodingError>
    ensures { (tree : AwaitTree NotificationId) → told ≡ future_record tree
        → WritesFrame AwaitingOn (awaiting_on_payload tree false) output.old result output.new }
{
    let message = AwaitingOnMessage {
        awaiting_on: Some(told),
        executing_side_effects: false,
    };
    let sent = output.send(alloc, &message);
    drop(message);
    sent
}

// Whether a suspension of this version cannot tell it.
fn is_suspension_too_deep(version: Version, waits: &WaitsFor) -> bool
    ensures { (slots : Slots) → result ≡ is_suspension_too_deep version (ids_over slots waits.now) }
{
    if Feature::AwaitTree.is_later_than(version.number()) {
        return false;
    }
    waits.is_too_deep()
}

// Writes what it waits for, and ends the output, or leaves the attempt as it was.
fn write_and_end(active: &mut Active, alloc: Global, waits: WaitsFor) -> Result<(), EncodingError>
    ensures { IsSuspensionWritten (awaited_ids active.old waits) active.old result active.new }
{
    let awaiting_on = record_of(&active.results, alloc, waits)?;
    write_suspension(&mut active.output, alloc, awaiting_on)?;
    active.output.send_eof();
    Ok(())
}

/// Suspends the attempt: writes what it waits for, and ends the output. The version is the output's.
///
/// Where it cannot be written the attempt stays as it was.
pub fn suspend(
    active: &mut Active,
    alloc: Global,
    version: Version,
    waits: WaitsFor,
) -> Result<(), TellError>
    ensures { Suspends version (awaited_ids active.old waits) active.old result active.new }
{
    if is_suspension_too_deep(version, &waits) {
        drop(waits);
        return Err(TellError::TooDeep);
    }
    match write_and_end(active, alloc, waits) {
        Ok(()) => Ok(()),
        Err(error) => Err(TellError::Encoding(error)),
    }
}

fn allows_telling(policy: AwaitingOnPolicy, executes_run: bool) -> bool
    ensures { result ≡ allows_telling policy executes_run }
{
    match policy {
        AwaitingOnPolicy::SendAlways => true,
        AwaitingOnPolicy::DontSendWhenExecutingRun => !executes_run,
        AwaitingOnPolicy::DontSend => false,
    }
}

fn tells_awaiting(
    version: Version,
    policy: AwaitingOnPolicy,
    executes_run: bool,
    waits: &WaitsFor,
) -> bool
    ensures { result ≡ tells_awaiting version policy executes_run (waits_for_any waits.now) }
{
    Feature::AwaitTree.is_in(version.number())
        && allows_telling(policy, executes_run)
        && waits.is_for_any()
}

fn write_awaited(active: &mut Active, alloc: Global, waits: WaitsFor) -> Result<(), EncodingError>
    ensures { WritesAwaited (awaited_ids active.old waits) active.old result active.new }
{
    let awaiting_on = record_of(&active.results, alloc, waits)?;
    write_awaiting_on(&mut active.output, alloc, awaiting_on)
}

fn tell(active: &mut Active, alloc: Global, waits: WaitsFor) -> Result<(), TellError>
    ensures { TellsIf true (awaited_ids active.old waits) active.old result active.new }
{
    if waits.is_too_deep() {
        drop(waits);
        return Err(TellError::TooDeep);
    }
    match write_awaited(active, alloc, waits) {
        Ok(()) => Ok(()),
        Err(error) => Err(TellError::Encoding(error)),
    }
}

/// Tells what the attempt waits for, where it stays for more input: as the policy has it, by whether any run is being executed, and
/// only where there is anything in it. The version is the output's.
pub fn tell_awaiting_on(
    active: &mut Active,
    alloc: Global,
    version: Version,
    policy: AwaitingOnPolicy,
    executes_run: bool,
    waits: WaitsFor,
) -> Result<(), TellError>
    ensures { TellsIf (tells_awaiting version policy executes_run (waits_for_any waits)) (awaited_ids active.old waits) active.old result active.new }
{
    if tells_awaiting(version, policy, executes_run, &waits) {
        return tell(active, alloc, waits);
    }
    drop(waits);
    Ok(())
}
