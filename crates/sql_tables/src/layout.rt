//! Whether tables and indexes are laid out as wanted.

ghost use Rattle.std.specs.Prelude.{◌≡◌, [], ◌∷◌, true, false, None, map, IsTrue};
ghost use Rattle.sqlite_value.specs.Keys.{plain};
ghost use Rattle.sql_tables.specs.Columns.{plain_orders, table_of, wanted_column};

use sqlite_items::Items;
use sqlite_schema::schema::{Column, Index, Kind, Schema, Table};
use sqlite_value::keys::{Collation, Order};
use sqlite_value::value::Value;

/// A column that a table has to have.
#[derive(Clone, Copy, Debug)]
pub struct Wanted {
    pub name: &'static str,
    pub kind: Kind,
    pub not_null: bool,
}

fn is_column(column: &Column, wanted: &Wanted) -> bool
    ensures exact { IsTrue result → column.now ≡ wanted_column wanted.now }
    ensures complete { column.now ≡ wanted_column wanted.now → IsTrue result }
{
    column.name.as_slice() == wanted.name.as_bytes()
        && column.kind == wanted.kind
        && column.is_strict
        && column.not_null == wanted.not_null
        && matches!(column.default, Value::Null)
        && column.collation == Collation::Binary
}

fn have_columns(columns: &[Column], wanted: &[Wanted]) -> bool
    ensures exact { IsTrue result → columns.now ≡ map wanted_column wanted.now }
    ensures complete { columns.now ≡ map wanted_column wanted.now → IsTrue result }
{
    match (columns, wanted) {
        ([], []) => true,
        ([first, rest @ ..], [want, wants @ ..]) => {
            is_column(first, want) && have_columns(rest, wants)
        }
        _ => false,
    }
}

fn is_bare(table: &Table) -> bool
    ensures exact { IsTrue result → (table.now.checks ≡ []) × (table.now.references ≡ []) × (table.now.computed ≡ []) × (table.now.stamps ≡ record { places = []; terms = []; formats = [] }) }
    ensures complete { (table.now.checks ≡ []) × (table.now.references ≡ []) × (table.now.computed ≡ []) × (table.now.stamps ≡ record { places = []; terms = []; formats = [] }) → IsTrue result }
{
    table.checks.roots.is_empty()
        && table.references.is_empty()
        && table.computed.is_empty()
        && table.stamps.places.is_empty()
        && table.stamps.terms.roots.is_empty()
        && table.stamps.formats.is_empty()
}

fn is_key(one: &Items<usize>, key: &[usize]) -> bool
    ensures exact { IsTrue result → one.now ≡ key.now }
    ensures complete { one.now ≡ key.now → IsTrue result }
{
    one.as_slice() == key
}

fn are_keys(uniques: &[Items<usize>], keys: &[&[usize]]) -> bool
    ensures exact { IsTrue result → uniques.now ≡ map (λ key. key.now) keys.now }
    ensures complete { uniques.now ≡ map (λ key. key.now) keys.now → IsTrue result }
{
    match (uniques, keys) {
        ([], []) => true,
        ([first, rest @ ..], [key, others @ ..]) => is_key(first, key) && are_keys(rest, others),
        _ => false,
    }
}

fn are_plain(orders: &[Order], keys: &[&[usize]]) -> bool
    ensures exact { IsTrue result → orders.now ≡ plain_orders (map (λ key. key.now) keys.now) }
    ensures complete { orders.now ≡ plain_orders (map (λ key. key.now) keys.now) → IsTrue result }
{
    match keys {
        [] => orders.is_empty(),
        [_, others @ ..] => match orders {
            [] => false,
            [first, rest @ ..] => first.digits == 0 && are_plain(rest, others),
        },
    }
}

fn has_keys(table: &Table, keys: &[&[usize]]) -> bool
    ensures exact { IsTrue result → (table.now.uniques ≡ map (λ key. key.now) keys.now) × (table.now.orders ≡ plain_orders (map (λ key. key.now) keys.now)) }
    ensures complete { (table.now.uniques ≡ map (λ key. key.now) keys.now) × (table.now.orders ≡ plain_orders (map (λ key. key.now) keys.now)) → IsTrue result }
{
    are_keys(table.uniques.as_slice(), keys) && are_plain(table.orders.as_slice(), keys)
}

/// Whether a table has just these columns and keys.
pub fn is_table(table: &Table, tree: u32, name: &str, wanted: &[Wanted], keys: &[&[usize]]) -> bool
    ensures exact { IsTrue result → table.now ≡ table_of tree name.now (map wanted_column wanted.now) (map (λ key. key.now) keys.now) }
    ensures complete { table.now ≡ table_of tree name.now (map wanted_column wanted.now) (map (λ key. key.now) keys.now) → IsTrue result }
{
    table.tree == tree
        && table.name.as_slice() == name.as_bytes()
        && have_columns(table.columns.as_slice(), wanted)
        && table.key.is_none()
        && table.primary.is_empty()
        && has_keys(table, keys)
        && is_bare(table)
        && !table.is_counted
}

/// Whether an index is the one wanted of these columns of that table: a key's, or one by which rows are only looked up.
pub fn is_index(
    index: &Index,
    name: &str,
    tree: u32,
    table: u32,
    columns: &[usize],
    is_unique: bool,
) -> bool
    ensures exact { IsTrue result → index.now ≡ record { name = name.now; tree = tree; table = table; columns = columns.now; order = plain; is_unique = is_unique } }
    ensures complete { index.now ≡ record { name = name.now; tree = tree; table = table; columns = columns.now; order = plain; is_unique = is_unique } → IsTrue result }
{
    index.tree == tree
        && index.table == table
        && index.name.as_slice() == name.as_bytes()
        && index.columns.as_slice() == columns
        && index.order.digits == 0
        && index.is_unique == is_unique
}

/// A column that is never null.
pub const fn required(name: &'static str, kind: Kind) -> Wanted
    ensures { result ≡ record { name = name.entry; kind = kind; not_null = true } }
{
    Wanted {
        name,
        kind,
        not_null: true,
    }
}

/// A column that may be null.
pub const fn optional(name: &'static str, kind: Kind) -> Wanted
    ensures { result ≡ record { name = name.entry; kind = kind; not_null = false } }
{
    Wanted {
        name,
        kind,
        not_null: false,
    }
}
