//! Values as the cells of a row: the parameters of a statement. Each clause `fits` tells what a value of the type is.

ghost use Rattle.std.specs.Prelude.{◌≡◌, IfSome, IsUtf8};
ghost use Rattle.sqlite.specs.Values.{bound_value, or_null};
ghost use Rattle.sqlite_value.specs.Value.{owned};
ghost use Rattle.sqlite_value.specs.declared.value.Value.TheVariants.{Blob, Text};
ghost use Rattle.sql_tables.specs.Cells.{IsLong, IsShort, flag_cell, long_cell, short_cell};

use bytes::{ByteStr, Bytes};
use sqlite::types::{ToSql, ValueRef};

/// A text as a text of SQL.
pub fn text(text: &ByteStr) -> ValueRef<'_>
    ensures cell { bound_value (owned result) ≡ Text text.now }
    ensures fits { IsUtf8 text.now }
{
    ValueRef::Text(text.as_bytes().as_slice())
}

/// Bytes as a blob of SQL.
pub fn blob(bytes: &Bytes) -> ValueRef<'_>
    ensures { bound_value (owned result) ≡ Blob bytes.now }
{
    ValueRef::Blob(bytes.as_slice())
}

/// 32 bits as an integer of SQL.
pub fn short<'a>(n: u32) -> ValueRef<'a>
    ensures cell { bound_value (owned result) ≡ short_cell n }
    ensures fits { IsShort n }
{
    n.to_sql()
}

/// 64 bits as an integer of SQL, with its sign.
pub fn long<'a>(n: u64) -> ValueRef<'a>
    ensures cell { bound_value (owned result) ≡ long_cell n }
    ensures fits { IsLong n }
{
    n.cast_signed().to_sql()
}

/// Whether something holds, as 1 or 0.
pub fn flag<'a>(b: bool) -> ValueRef<'a>
    ensures { bound_value (owned result) ≡ flag_cell b }
{
    b.to_sql()
}

/// A text, or NULL for none.
pub fn text_or_null(value: &Option<ByteStr>) -> ValueRef<'_>
    ensures cell { bound_value (owned result) ≡ or_null Text value.now }
    ensures fits { IfSome value.now IsUtf8 }
{
    match value {
        Some(value) => text(value),
        None => ValueRef::Null,
    }
}

/// Bytes, or NULL for none.
pub fn blob_or_null(value: &Option<Bytes>) -> ValueRef<'_>
    ensures { bound_value (owned result) ≡ or_null Blob value.now }
{
    match value {
        Some(value) => blob(value),
        None => ValueRef::Null,
    }
}

/// 32 bits, or NULL for none.
pub fn short_or_null<'a>(value: Option<u32>) -> ValueRef<'a>
    ensures cell { bound_value (owned result) ≡ or_null short_cell value }
    ensures fits { IfSome value IsShort }
{
    match value {
        Some(value) => short(value),
        None => ValueRef::Null,
    }
}

/// 64 bits, or NULL for none.
pub fn long_or_null<'a>(value: Option<u64>) -> ValueRef<'a>
    ensures cell { bound_value (owned result) ≡ or_null long_cell value }
    ensures fits { IfSome value IsLong }
{
    match value {
        Some(value) => long(value),
        None => ValueRef::Null,
    }
}
