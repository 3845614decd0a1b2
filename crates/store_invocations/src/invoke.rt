//! What a new invocation makes ready.

ghost use Rattle.std.specs.Prelude.{◌≡◌, ◌∷◌, [], List, IfOk, IfErr};
ghost use Rattle.sqlite.specs.Held.{state};
ghost use Rattle.sqlite.specs.State.{HasCleanDisk};
ghost use Rattle.journal_model.specs.Event.{Event};
ghost use Rattle.journal_model.specs.Journal.{is_busy};
ghost use Rattle.protocol_types.specs.Version.{version_number};
ghost use Rattle.store_tables.specs.Looks.{OnlyAsks};
ghost use Rattle.store_tables.specs.declared.row.Write.{Write};
ghost use Rattle.store_model.specs.Writes.{writes_of};
ghost use Rattle.store_refusals.specs.Preparations.{Prepares, TellsOrRefuses};
ghost use Rattle.store_invocations.specs.NewInvocations.{entry_of_input, first_progress, first_row, first_writes, id_tests, input_tests, is_nameless, object_tests};
ghost use Rattle.store_invocations.specs.Rows.{Decides, IsStoreOf};
ghost use Rattle.store_refusals.specs.Causes.{IsUnasked, TellsCause};

use crate::input::payload_of_input;
use crate::row::row_of;
use bytes::{ByteStr, Bytes};
use journal_model::{NewInvocation, StateMode};
use protocol_stream::{MessageType, Version};
use sqlite::Alter;
use std::alloc::{AllocError, Global};
use store_refusals::{Cause, Refusal};
use store_tables::{EntryRow, InvocationRow, Progress, StoreTables, Write, open_invocation};

fn is_nameless(new: &NewInvocation) -> bool
    ensures { result ≡ is_nameless new.now }
{
    new.id.is_empty() || new.object.is_empty()
}

/// Whether an object has an open invocation.
fn has_open<S: Alter>(tables: &mut StoreTables<S>, object: &ByteStr) -> Result<bool, Refusal>
    ensures told { HasCleanDisk (state S.Store tables.new) → (events : List Event) → IsStoreOf events (state S.Store tables.old) → TellsOrRefuses (λ busy. busy ≡ is_busy events object.now) result }
    ensures looks { OnlyAsks S.Store tables.old tables.new }
    ensures cause { IfErr result (TellsCause (state S.Store tables.old) (state S.Store tables.new)) }
{
    let row = open_invocation(tables, object)?;
    let busy = row.is_some();
    drop(row);
    Ok(busy)
}

/// The object of a new invocation is free, and nothing of it is without a name.
fn take_object<S: Alter>(tables: &mut StoreTables<S>, new: &NewInvocation) -> Result<(), Refusal>
    ensures decided { HasCleanDisk (state S.Store tables.new) → (events : List Event) → IsStoreOf events (state S.Store tables.old) → Decides (object_tests events new.now) (λ _. Unit {0}) result }
    ensures looks { OnlyAsks S.Store tables.old tables.new }
    ensures cause { IfErr result (TellsCause (state S.Store tables.old) (state S.Store tables.new)) }
{
    let busy = has_open(tables, &new.object)?;
    if busy {
        return Err(Refusal::Cause(Cause::ObjectBusy));
    }
    if is_nameless(new) {
        return Err(Refusal::Cause(Cause::EmptyName));
    }
    Ok(())
}

/// The id of a new invocation was not used, and its version is supported.
fn take_id<S: Alter>(tables: &mut StoreTables<S>, new: &NewInvocation) -> Result<Version, Refusal>
    ensures decided { HasCleanDisk (state S.Store tables.new) → (events : List Event) → IsStoreOf events (state S.Store tables.old) → Decides (id_tests events new.now) (λ version. version_number version ≡ new.now.version) result }
    ensures looks { OnlyAsks S.Store tables.old tables.new }
    ensures cause { IfErr result (TellsCause (state S.Store tables.old) (state S.Store tables.new)) }
{
    let row = row_of(tables, &new.id)?;
    let used = row.is_some();
    drop(row);
    if used {
        return Err(Refusal::Cause(Cause::IdUsed));
    }
    match Version::spoken(new.version) {
        Some(version) => Ok(version),
        None => Err(Refusal::Cause(Cause::UnsupportedVersion)),
    }
}

fn progress_at_first(new: &NewInvocation) -> Result<Progress, AllocError>
    ensures { IfOk result (λ progress. progress ≡ first_progress new.now) }
{
    Ok(Progress {
        open_object: Some(new.object.clone()?),
        suspension: None,
        handed: None,
        closing: None,
        answer: None,
        last_error: None,
        attempts: 0,
        attempts_since_entry: 0,
        first_moment: 0,
        last_completion: 0,
        entries: 1,
        heard: None,
        arrivals: 0,
        is_awake: true,
    })
}

fn row_at_first(new: &NewInvocation, version: Version) -> Result<InvocationRow, AllocError>
    ensures { IfOk result (λ row. row ≡ first_row version new.now) }
{
    Ok(InvocationRow {
        id: new.id.clone()?,
        object: new.object.clone()?,
        version,
        seed: new.seed,
        is_whole: new.state == StateMode::Whole,
        progress: progress_at_first(new)?,
    })
}

fn input_entry(new: &NewInvocation, payload: Bytes) -> Result<EntryRow, AllocError>
    ensures { IfOk result (λ entry. entry ≡ entry_of_input new.now payload) }
{
    Ok(EntryRow {
        invocation: new.id.clone()?,
        place: 0,
        kind: MessageType::InputCommand,
        payload,
        completion: None,
        second_completion: None,
        answered: None,
        moment: 0,
        arrival: None,
    })
}

fn two_writes(alloc: Global, row: InvocationRow, entry: EntryRow) -> Result<Vec<Write>, AllocError>
    ensures { IfOk result (λ writes. writes.items ≡ Write.AddInvocation row ∷ Write.AddEntry entry ∷ []) }
{
    let mut writes = Vec::new(alloc);
    writes.push(Write::AddInvocation(row))?;
    writes.push(Write::AddEntry(entry))?;
    Ok(writes)
}

fn writes_with(
    alloc: Global,
    new: &NewInvocation,
    version: Version,
    payload: Bytes,
) -> Result<Vec<Write>, AllocError>
    ensures { IfOk result (λ writes. writes.items ≡ Write.AddInvocation (first_row version new.now) ∷ Write.AddEntry (entry_of_input new.now payload) ∷ []) }
{
    let entry = input_entry(new, payload)?;
    let row = row_at_first(new, version);
    match row {
        Ok(row) => two_writes(alloc, row, entry),
        Err(refused) => {
            drop(entry);
            Err(refused)
        }
    }
}

fn writes_at_first(
    alloc: Global,
    new: &NewInvocation,
    version: Version,
) -> Result<Vec<Write>, Refusal>
    ensures decided { Decides (input_tests new.now) (λ writes. writes.items ≡ first_writes version new.now) result }
    ensures unasked { IfErr result IsUnasked }
{
    let payload = payload_of_input(alloc, new)?;
    let writes = writes_with(alloc, new, version, payload)?;
    Ok(writes)
}

/// What a new invocation writes, or why it is refused: its row, and its input as the entry at place 0.
pub fn prepare_invoke<S: Alter>(
    tables: &mut StoreTables<S>,
    new: &NewInvocation,
) -> Result<Vec<Write>, Refusal>
    ensures prepared { HasCleanDisk (state S.Store tables.new) → (events : List Event) → IsStoreOf events (state S.Store tables.old)
        → Prepares events (Event.Invoke new.now) (λ writes. writes.items ≡ writes_of events (Event.Invoke new.now)) result }
    ensures looks { OnlyAsks S.Store tables.old tables.new }
    ensures cause { IfErr result (TellsCause (state S.Store tables.old) (state S.Store tables.new)) }
{
    take_object(tables, new)?;
    let version = take_id(tables, new)?;
    writes_at_first(tables.alloc(), new, version)
}
