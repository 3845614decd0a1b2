//! What an invocation has asked of others, and nobody has answered.

ghost use Rattle.std.specs.Prelude.{◌≡◌, ℕ, List, [], option_map, IfErr, IfOk, OnOk};
ghost use Rattle.std.specs.Option.{option_to_list};
ghost use Rattle.std.specs.List.{list_any};
ghost use Rattle.std.specs.BTreeMap.{is_at};
ghost use Rattle.std.specs.Ordering.{nat_cmp};
ghost use Rattle.sqlite.specs.Held.{state};
ghost use Rattle.sqlite.specs.State.{HasCleanDisk};
ghost use Rattle.journal_model.specs.Event.{Event};
ghost use Rattle.store_tables.specs.Looks.{OnlyAsks};
ghost use Rattle.store_refusals.specs.Causes.{TellsCause};
ghost use Rattle.store_invocations.specs.Rows.{Decides, IsStoreOf, known_tests};
ghost use Rattle.store_reads.specs.OpenRequests.{asks_others_by, is_answered, journal_if_open, open_requests, row_told, rows_told, unless_come, with_number};

use bytes::{ByteStr, Bytes};
use protocol_stream::MessageType;
use sqlite::Alter;
use std::alloc::{AllocError, Global};
use std::collections::BTreeSet;
use store_invocations::known_row;
use store_refusals::Refusal;
use store_tables::{EntryRow, StoreTables, journal};

/// A request for something that others bring, as its frame has it.
#[derive(Debug, Drop)]
pub struct OpenRequest {
    /// From 1 on, as an entry's.
    pub place: u32,
    pub ty: MessageType,
    pub payload: Bytes,
    /// The completion that it asks for, or the first of a call's two, the id of what was called: nothing where it has come.
    pub completion: Option<u32>,
    /// The second of a call's, what the call came to: nothing where it has come, or none was asked for.
    pub second_completion: Option<u32>,
}

fn is_for_others(ty: MessageType) -> bool
    ensures { result ≡ asks_others_by ty }
{
    match ty {
        MessageType::GetPromiseCommand => true,
        MessageType::PeekPromiseCommand => true,
        MessageType::CompletePromiseCommand => true,
        MessageType::CallCommand => true,
        MessageType::OneWayCallCommand => true,
        MessageType::AttachInvocationCommand => true,
        MessageType::GetInvocationOutputCommand => true,
        _ => false,
    }
}

/// The completion, unless it has come.
fn awaited(completion: Option<u32>, come: &BTreeSet<u32>) -> Option<u32>
    ensures { result ≡ unless_come (λ n. list_any (is_at (nat_cmp n)) come.now.keys) completion }
{
    let number = completion?;
    if come.contains(&number) {
        return None;
    }
    Some(number)
}

fn request_of(row: &EntryRow, come: &BTreeSet<u32>) -> Result<Option<OpenRequest>, AllocError>
    ensures { IfOk result (λ request. option_to_list request ≡ row_told (λ n. list_any (is_at (nat_cmp n)) come.now.keys) row.now) }
{
    if !is_for_others(row.kind) {
        return Ok(None);
    }
    let completion = awaited(row.completion, come);
    let second_completion = awaited(row.second_completion, come);
    if completion.is_none() && second_completion.is_none() {
        return Ok(None);
    }
    Ok(Some(OpenRequest {
        place: row.place,
        ty: row.kind,
        payload: row.payload.clone()?,
        completion,
        second_completion,
    }))
}

fn add(come: &mut BTreeSet<u32>, answered: Option<u32>) -> Result<(), AllocError>
    ensures { OnOk result (come.new.keys ≡ with_number answered come.old.keys) }
{
    if let Some(number) = answered {
        come.insert(number)?;
    }
    Ok(())
}

/// The completions that the rows answer.
fn come_in(alloc: Global, rows: &[EntryRow]) -> Result<BTreeSet<u32>, AllocError>
    ensures { IfOk result (λ come. (n : ℕ) → list_any (is_at (nat_cmp n)) come.keys ≡ is_answered rows.now n) }
{
    let mut come = BTreeSet::new(alloc);
    for row in rows {
        add(&mut come, row.answered)?;
    }
    Ok(come)
}

/// The requests among the rows of which a completion is not in the set.
fn requests_but(
    alloc: Global,
    rows: &[EntryRow],
    come: &BTreeSet<u32>,
) -> Result<Vec<OpenRequest>, AllocError>
    ensures { IfOk result (λ requests. requests.items ≡ rows_told (λ n. list_any (is_at (nat_cmp n)) come.now.keys) rows.now) }
{
    let mut open = Vec::new(alloc);
    for row in rows {
        if let Some(request) = request_of(row, come)? {
            open.push(request)?;
        }
    }
    Ok(open)
}

fn requests_among(alloc: Global, rows: &[EntryRow]) -> Result<Vec<OpenRequest>, AllocError>
    ensures { IfOk result (λ requests. requests.items ≡ rows_told (is_answered rows.now) rows.now) }
{
    let come = come_in(alloc, rows)?;
    requests_but(alloc, rows, &come)
}

/// The rows of the journal of an open invocation, the input's first: so many as the invocation's row tells. None of a closed one.
fn rows_if_open<S: Alter>(
    tables: &mut StoreTables<S>,
    id: &ByteStr,
) -> Result<Option<Vec<EntryRow>>, Refusal>
    ensures told { HasCleanDisk (state S.Store tables.new) → (events : List Event) → IsStoreOf events (state S.Store tables.old)
        → Decides (known_tests events id.now) (λ rows. option_map (λ found. found.items) rows ≡ journal_if_open events id.now) result }
    ensures looks { OnlyAsks S.Store tables.old tables.new }
    ensures cause { IfErr result (TellsCause (state S.Store tables.old) (state S.Store tables.new)) }
{
    let row = known_row(tables, id)?;
    let open = row.progress.closing.is_none();
    let count = row.progress.entries;
    drop(row);
    if !open {
        return Ok(None);
    }
    let rows = journal(tables, id)?;
    if rows.len() != count as usize {
        drop(rows);
        return Err(Refusal::ForeignRow);
    }
    Ok(Some(rows))
}

/// What an open invocation has asked of others and nobody has answered, by place; of a closed one nothing, and its journal is not read.
/// Where rows are missing that the invocation's row counts, it is foreign.
pub fn open_requests<S: Alter>(
    tables: &mut StoreTables<S>,
    id: &ByteStr,
) -> Result<Vec<OpenRequest>, Refusal>
    ensures told { HasCleanDisk (state S.Store tables.new) → (events : List Event) → IsStoreOf events (state S.Store tables.old)
        → Decides (known_tests events id.now) (λ requests. requests.items ≡ open_requests events id.now) result }
    ensures looks { OnlyAsks S.Store tables.old tables.new }
    ensures cause { IfErr result (TellsCause (state S.Store tables.old) (state S.Store tables.new)) }
{
    let found = rows_if_open(tables, id)?;
    let Some(rows) = found else {
        return Ok(Vec::new(tables.alloc()));
    };
    let among = requests_among(tables.alloc(), rows.as_slice());
    drop(rows);
    let requests = among?;
    Ok(requests)
}
