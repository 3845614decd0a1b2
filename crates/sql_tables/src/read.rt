//! What is read from a cell, where it is what `cell` makes of a value.

ghost use Rattle.std.specs.Prelude.{◌≡◌, ◌<◌, ◌↔◌, ⊤, length, IfErr, IfOk, IfSome, IsTrue, IsUtf8};
ghost use Rattle.sqlite.specs.Values.{or_null};
ghost use Rattle.sqlite_value.specs.declared.value.Value.TheVariants.{Blob, Null, Text};
ghost use Rattle.sqlite_value.specs.Order.{column};
ghost use Rattle.sql_tables.specs.Cells.{IsLong, IsShort, flag_cell, long_cell, short_cell};
ghost use Rattle.sql_tables.specs.CellReads.{IsCell, IsForeign};

use bytes::{ByteStr, Bytes};
use sqlite::types::ValueRef;
use sqlite::{Error, Row};
use std::alloc::{AllocError, Global};

/// Why records cannot be read.
#[derive(Clone, Copy, Debug, PartialEq, Eq)]
pub enum ReadError {
    /// The database refused the statement.
    Refused(Error),
    /// There is a row that is no record.
    Foreign,
    /// There is no memory for the records.
    OutOfMemory,
}

/// Why a row cannot be read.
#[derive(Clone, Copy, Debug, PartialEq, Eq)]
pub enum RowError {
    /// It is no record's.
    Foreign,
    /// There is no memory for the record.
    OutOfMemory,
}

impl From<AllocError> for RowError {
    ghost use Rattle.std.specs.Prelude.{◌≡◌};
    ghost use Rattle.sql_tables.specs.declared.read.RowError.TheVariants.{OutOfMemory};

    ghost from_gives = { λ _ e. e ≡ OutOfMemory };

    fn from(_: AllocError) -> RowError {
        RowError::OutOfMemory
    }
}

impl From<RowError> for ReadError {
    ghost use Rattle.std.specs.Prelude.{◌≡◌};
    ghost use Rattle.sql_tables.specs.CellReads.{read_error};

    ghost from_gives = { λ row e. e ≡ read_error row };

    fn from(error: RowError) -> ReadError {
        match error {
            RowError::Foreign => ReadError::Foreign,
            RowError::OutOfMemory => ReadError::OutOfMemory,
        }
    }
}

/// A text of SQL that is UTF-8.
pub fn text_at(alloc: Global, row: &Row, at: usize) -> Result<ByteStr, RowError>
    ensures ok { IfOk result (IsCell Text IsUtf8 row.now at) }
    ensures foreign { IfErr result (λ e. e ≡ RowError.Foreign → IsForeign Text IsUtf8 row.now at) }
{
    match row.get_ref(at) {
        Ok(ValueRef::Text(bytes)) => match std::str::from_utf8(bytes) {
            Ok(text) => Ok(ByteStr::copy_from_str(alloc, text)?),
            Err(_) => Err(RowError::Foreign),
        },
        _ => Err(RowError::Foreign),
    }
}

/// A blob of SQL.
pub fn blob_at(alloc: Global, row: &Row, at: usize) -> Result<Bytes, RowError>
    ensures ok { IfOk result (IsCell Blob (λ _. ⊤) row.now at) }
    ensures foreign { IfErr result (λ e. e ≡ RowError.Foreign → IsForeign Blob (λ _. ⊤) row.now at) }
{
    match row.get_ref(at) {
        Ok(ValueRef::Blob(bytes)) => Ok(Bytes::copy_from_slice(alloc, bytes)?),
        _ => Err(RowError::Foreign),
    }
}

/// An integer of SQL that 32 bits hold.
pub fn short_at(row: &Row, at: usize) -> Result<u32, RowError>
    ensures ok { IfOk result (IsCell short_cell IsShort row.now at) }
    ensures foreign { IfErr result (λ e. e ≡ RowError.Foreign → IsForeign short_cell IsShort row.now at) }
{
    match row.get_ref(at) {
        Ok(ValueRef::Int(n)) => u32::try_from(n).map_err(|_| RowError::Foreign),
        _ => Err(RowError::Foreign),
    }
}

/// 64 bits that were written as an integer of SQL, with its sign.
pub fn long_at(row: &Row, at: usize) -> Result<u64, RowError>
    ensures ok { IfOk result (IsCell long_cell IsLong row.now at) }
    ensures foreign { IfErr result (λ e. e ≡ RowError.Foreign → IsForeign long_cell IsLong row.now at) }
{
    match row.get_ref(at) {
        Ok(ValueRef::Int(n)) => Ok(n.cast_unsigned()),
        _ => Err(RowError::Foreign),
    }
}

/// Whether something holds: an integer of SQL that is 1 or 0.
pub fn flag_at(row: &Row, at: usize) -> Result<bool, RowError>
    ensures ok { IfOk result (IsCell flag_cell (λ _. ⊤) row.now at) }
    ensures foreign { IfErr result (λ e. e ≡ RowError.Foreign → IsForeign flag_cell (λ _. ⊤) row.now at) }
{
    match row.get_ref(at) {
        Ok(ValueRef::Int(0)) => Ok(false),
        Ok(ValueRef::Int(1)) => Ok(true),
        _ => Err(RowError::Foreign),
    }
}

fn is_null_at(row: &Row, at: usize) -> bool
    ensures { IsTrue result ↔ (at < length row.now) × (column row.now at ≡ Null) }
{
    matches!(row.get_ref(at), Ok(ValueRef::Null))
}

/// A text, or none for NULL.
pub fn text_or_none_at(alloc: Global, row: &Row, at: usize) -> Result<Option<ByteStr>, RowError>
    ensures ok { IfOk result (IsCell (or_null Text) (λ o. IfSome o IsUtf8) row.now at) }
    ensures foreign { IfErr result (λ e. e ≡ RowError.Foreign → IsForeign (or_null Text) (λ o. IfSome o IsUtf8) row.now at) }
{
    if is_null_at(row, at) {
        return Ok(None);
    }
    text_at(alloc, row, at).map(Some)
}

/// Bytes, or none for NULL.
pub fn blob_or_none_at(alloc: Global, row: &Row, at: usize) -> Result<Option<Bytes>, RowError>
    ensures ok { IfOk result (IsCell (or_null Blob) (λ o. IfSome o (λ _. ⊤)) row.now at) }
    ensures foreign { IfErr result (λ e. e ≡ RowError.Foreign → IsForeign (or_null Blob) (λ o. IfSome o (λ _. ⊤)) row.now at) }
{
    if is_null_at(row, at) {
        return Ok(None);
    }
    blob_at(alloc, row, at).map(Some)
}

/// 32 bits, or none for NULL.
pub fn short_or_none_at(row: &Row, at: usize) -> Result<Option<u32>, RowError>
    ensures ok { IfOk result (IsCell (or_null short_cell) (λ o. IfSome o IsShort) row.now at) }
    ensures foreign { IfErr result (λ e. e ≡ RowError.Foreign → IsForeign (or_null short_cell) (λ o. IfSome o IsShort) row.now at) }
{
    if is_null_at(row, at) {
        return Ok(None);
    }
    short_at(row, at).map(Some)
}

/// 64 bits, or none for NULL.
pub fn long_or_none_at(row: &Row, at: usize) -> Result<Option<u64>, RowError>
    ensures ok { IfOk result (IsCell (or_null long_cell) (λ o. IfSome o IsLong) row.now at) }
    ensures foreign { IfErr result (λ e. e ≡ RowError.Foreign → IsForeign (or_null long_cell) (λ o. IfSome o IsLong) row.now at) }
{
    if is_null_at(row, at) {
        return Ok(None);
    }
    long_at(row, at).map(Some)
}
