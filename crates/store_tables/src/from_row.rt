//! Records, read from their rows.

ghost use Rattle.std.specs.Prelude.{◌≡◌, ◌≢◌, ◌<◌, ◌^◌, IfErr, IfOk};
ghost use Rattle.sqlite_value.specs.Order.{column};
ghost use Rattle.sqlite.specs.Values.{or_null};
ghost use Rattle.protocol_types.specs.MessageType.{type_number};
ghost use Rattle.protocol_types.specs.Version.{version_number};
ghost use Rattle.sql_tables.specs.Cells.{short_cell};
ghost use Rattle.store_tables.specs.Kinds.{kept_kind};
ghost use Rattle.store_tables.specs.Parts.{AreCounts, IsErrorAt, IsProgressAt};
ghost use Rattle.store_tables.specs.Records.{FitsEntry, FitsId, FitsInvocation, FitsSleep, FitsState, FitsMark, IdRow, InvocationRow, EntryRow, Mark, SleepRow, StateRow, cells_of_mark, closing_cell, entry_cells, id_cells, invocation_cells, sleep_cells, state_cells};

use crate::kind::kind_kept;
use crate::row::{
    Closing, EntryRow, IdRow, InvocationRow, LastError, Mark, Progress, SleepRow, StateRow,
};
use protocol_types::{MessageType, Version};
use sql_tables::read::{
    RowError, blob_at, blob_or_none_at, flag_at, long_at, long_or_none_at, short_at,
    short_or_none_at, text_at, text_or_none_at,
};
use sql_tables::stored::Stored;
use sqlite::Row;
use std::alloc::Global;

fn mark_from(alloc: Global, row: &Row) -> Result<Mark, RowError>
    ensures ok { IfOk result (λ m. (cells_of_mark m ≡ row.now) × FitsMark m) }
    ensures foreign { IfErr result (λ e. e ≡ RowError.Foreign → (x : Mark) → FitsMark x → cells_of_mark x ≢ row.now) }
{
    if row.column_count() != 2 {
        return Err(RowError::Foreign);
    }
    let version = short_at(row, 1)?;
    let name = text_at(alloc, row, 0)?;
    Ok(Mark { name, version })
}

impl Stored for Mark {
    ghost use Rattle.store_tables.specs.Records.{FitsMark, cells_of_mark};

    ghost cells = { cells_of_mark };

    ghost fits = { FitsMark };

    fn from_row(alloc: Global, row: &Row) -> Result<Mark, RowError> {
        mark_from(alloc, row)
    }
}

fn id_from(alloc: Global, row: &Row) -> Result<IdRow, RowError>
    ensures ok { IfOk result (λ i. (id_cells i ≡ row.now) × FitsId i) }
    ensures foreign { IfErr result (λ e. e ≡ RowError.Foreign → (x : IdRow) → FitsId x → id_cells x ≢ row.now) }
{
    if row.column_count() != 1 {
        return Err(RowError::Foreign);
    }
    let id = text_at(alloc, row, 0)?;
    Ok(IdRow { id })
}

impl Stored for IdRow {
    ghost use Rattle.store_tables.specs.Records.{FitsId, id_cells};

    ghost cells = { id_cells };

    ghost fits = { FitsId };

    fn from_row(alloc: Global, row: &Row) -> Result<IdRow, RowError> {
        id_from(alloc, row)
    }
}

fn state_from(alloc: Global, row: &Row) -> Result<StateRow, RowError>
    ensures ok { IfOk result (λ s. (state_cells s ≡ row.now) × FitsState s) }
    ensures foreign { IfErr result (λ e. e ≡ RowError.Foreign → (x : StateRow) → FitsState x → state_cells x ≢ row.now) }
{
    if row.column_count() != 3 {
        return Err(RowError::Foreign);
    }
    Ok(StateRow {
        object: text_at(alloc, row, 0)?,
        key: blob_at(alloc, row, 1)?,
        value: blob_at(alloc, row, 2)?,
    })
}

impl Stored for StateRow {
    ghost use Rattle.store_tables.specs.Records.{FitsState, state_cells};

    ghost cells = { state_cells };

    ghost fits = { FitsState };

    fn from_row(alloc: Global, row: &Row) -> Result<StateRow, RowError> {
        state_from(alloc, row)
    }
}

fn sleep_from(alloc: Global, row: &Row) -> Result<SleepRow, RowError>
    ensures ok { IfOk result (λ s. (sleep_cells s ≡ row.now) × FitsSleep s) }
    ensures foreign { IfErr result (λ e. e ≡ RowError.Foreign → (x : SleepRow) → FitsSleep x → sleep_cells x ≢ row.now) }
{
    if row.column_count() != 3 {
        return Err(RowError::Foreign);
    }
    let moment = long_at(row, 0)?;
    let completion = short_at(row, 2)?;
    let invocation = text_at(alloc, row, 1)?;
    Ok(SleepRow {
        moment,
        invocation,
        completion,
    })
}

impl Stored for SleepRow {
    ghost use Rattle.store_tables.specs.Records.{FitsSleep, sleep_cells};

    ghost cells = { sleep_cells };

    ghost fits = { FitsSleep };

    fn from_row(alloc: Global, row: &Row) -> Result<SleepRow, RowError> {
        sleep_from(alloc, row)
    }
}

fn kind_from(row: &Row) -> Result<MessageType, RowError>
    ensures ok { IfOk result (λ kind. (short_cell (kept_kind kind) ≡ column row.now 2) × (type_number kind < 2 ^ 16)) }
    ensures foreign { IfErr result (λ e. e ≡ RowError.Foreign → (x : EntryRow) → FitsEntry x → entry_cells x ≢ row.now) }
{
    let number = short_at(row, 2)?;
    match kind_kept(number) {
        Some(kind) => Ok(kind),
        None => Err(RowError::Foreign),
    }
}

fn entry_from(alloc: Global, row: &Row) -> Result<EntryRow, RowError>
    ensures ok { IfOk result (λ e. (entry_cells e ≡ row.now) × FitsEntry e) }
    ensures foreign { IfErr result (λ e. e ≡ RowError.Foreign → (x : EntryRow) → FitsEntry x → entry_cells x ≢ row.now) }
{
    if row.column_count() != 9 {
        return Err(RowError::Foreign);
    }
    let place = short_at(row, 1)?;
    let kind = kind_from(row)?;
    let completion = short_or_none_at(row, 4)?;
    let second_completion = short_or_none_at(row, 5)?;
    let answered = short_or_none_at(row, 6)?;
    let arrival = short_or_none_at(row, 7)?;
    let moment = long_at(row, 8)?;
    let payload = blob_at(alloc, row, 3)?;
    let invocation = text_at(alloc, row, 0)?;
    Ok(EntryRow {
        invocation,
        place,
        kind,
        payload,
        completion,
        second_completion,
        answered,
        arrival,
        moment,
    })
}

impl Stored for EntryRow {
    ghost use Rattle.store_tables.specs.Records.{FitsEntry, entry_cells};

    ghost cells = { entry_cells };

    ghost fits = { FitsEntry };

    fn from_row(alloc: Global, row: &Row) -> Result<EntryRow, RowError> {
        entry_from(alloc, row)
    }
}

fn closing_from(row: &Row) -> Result<Option<Closing>, RowError>
    ensures ok { IfOk result (λ o. or_null closing_cell o ≡ column row.now 8) }
    ensures foreign { IfErr result (λ e. e ≡ RowError.Foreign → (x : InvocationRow) → FitsInvocation x → invocation_cells x ≢ row.now) }
{
    match short_or_none_at(row, 8)? {
        None => Ok(None),
        Some(1) => Ok(Some(Closing::Ended)),
        Some(2) => Ok(Some(Closing::Failed)),
        Some(_) => Err(RowError::Foreign),
    }
}

fn error_from(alloc: Global, row: &Row) -> Result<Option<LastError>, RowError>
    ensures ok { IfOk result (IsErrorAt row.now) }
    ensures foreign { IfErr result (λ e. e ≡ RowError.Foreign → (x : InvocationRow) → FitsInvocation x → invocation_cells x ≢ row.now) }
{
    let code = short_or_none_at(row, 10)?;
    let behavior = short_or_none_at(row, 11)?;
    let delay = long_or_none_at(row, 12)?;
    let message = text_or_none_at(alloc, row, 13)?;
    match (code, behavior, message) {
        (Some(code), Some(behavior), Some(message)) => Ok(Some(LastError {
            code,
            behavior,
            delay,
            message,
        })),
        (None, None, None) if delay.is_none() => Ok(None),
        _ => Err(RowError::Foreign),
    }
}

/// The numbers at the end of an invocation's row.
#[derive(Clone, Copy, Debug)]
pub struct Counts {
    pub attempts: u32,
    pub attempts_since_entry: u32,
    pub first_moment: u64,
    pub last_completion: u32,
    pub entries: u32,
    pub arrivals: u32,
}

fn counts_from(row: &Row) -> Result<Counts, RowError>
    ensures ok { IfOk result (AreCounts row.now) }
    ensures foreign { IfErr result (λ e. e ≡ RowError.Foreign → (x : InvocationRow) → FitsInvocation x → invocation_cells x ≢ row.now) }
{
    Ok(Counts {
        attempts: short_at(row, 14)?,
        attempts_since_entry: short_at(row, 15)?,
        first_moment: long_at(row, 16)?,
        last_completion: short_at(row, 17)?,
        entries: short_at(row, 18)?,
        arrivals: short_at(row, 20)?,
    })
}

fn progress_from(alloc: Global, row: &Row) -> Result<Progress, RowError>
    ensures ok { IfOk result (IsProgressAt row.now) }
    ensures foreign { IfErr result (λ e. e ≡ RowError.Foreign → (x : InvocationRow) → FitsInvocation x → invocation_cells x ≢ row.now) }
{
    let counts = counts_from(row)?;
    let handed = short_or_none_at(row, 7)?;
    let heard = short_or_none_at(row, 19)?;
    let is_awake = flag_at(row, 21)?;
    let closing = closing_from(row)?;
    let open_object = text_or_none_at(alloc, row, 5)?;
    let suspension = blob_or_none_at(alloc, row, 6)?;
    let answer = blob_or_none_at(alloc, row, 9)?;
    let last_error = error_from(alloc, row)?;
    Ok(Progress {
        open_object,
        suspension,
        handed,
        closing,
        answer,
        last_error,
        attempts: counts.attempts,
        attempts_since_entry: counts.attempts_since_entry,
        first_moment: counts.first_moment,
        last_completion: counts.last_completion,
        entries: counts.entries,
        heard,
        arrivals: counts.arrivals,
        is_awake,
    })
}

fn version_from(row: &Row) -> Result<Version, RowError>
    ensures ok { IfOk result (λ v. short_cell (version_number v) ≡ column row.now 2) }
    ensures foreign { IfErr result (λ e. e ≡ RowError.Foreign → (x : InvocationRow) → FitsInvocation x → invocation_cells x ≢ row.now) }
{
    let number = short_at(row, 2)?;
    match Version::with_number(number) {
        Some(version) => Ok(version),
        None => Err(RowError::Foreign),
    }
}

fn invocation_from(alloc: Global, row: &Row) -> Result<InvocationRow, RowError>
    ensures ok { IfOk result (λ i. (invocation_cells i ≡ row.now) × FitsInvocation i) }
    ensures foreign { IfErr result (λ e. e ≡ RowError.Foreign → (x : InvocationRow) → FitsInvocation x → invocation_cells x ≢ row.now) }
{
    if row.column_count() != 22 {
        return Err(RowError::Foreign);
    }
    let version = version_from(row)?;
    let seed = long_at(row, 3)?;
    let is_whole = flag_at(row, 4)?;
    let id = text_at(alloc, row, 0)?;
    let object = text_at(alloc, row, 1)?;
    let progress = progress_from(alloc, row)?;
    Ok(InvocationRow {
        id,
        object,
        version,
        seed,
        is_whole,
        progress,
    })
}

impl Stored for InvocationRow {
    ghost use Rattle.store_tables.specs.Records.{FitsInvocation, invocation_cells};

    ghost cells = { invocation_cells };

    ghost fits = { FitsInvocation };

    fn from_row(alloc: Global, row: &Row) -> Result<InvocationRow, RowError> {
        invocation_from(alloc, row)
    }
}
