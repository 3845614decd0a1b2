//! Whether a schema is the store's.

ghost use Rattle.std.specs.Prelude.{◌≡◌, false, true, map, IsTrue};
ghost use Rattle.sql_tables.specs.Columns.{no_schema};
ghost use Rattle.store_tables.specs.Indexes.{wanted_index};
ghost use Rattle.store_tables.specs.Tables.{store_schema};
ghost use Rattle.store_tables.specs.Tables as tables;

use sql_tables::layout::{is_index, is_table, optional, required};
use sqlite_schema::schema::{Index, Kind, Schema, Table};

fn is_meta(table: &Table) -> bool
    ensures exact { IsTrue result → table.now ≡ tables.meta }
    ensures complete { table.now ≡ tables.meta → IsTrue result }
{
    is_table(
        table,
        3,
        "meta",
        &[
            required("name", Kind::Text),
            required("version", Kind::Integer),
        ],
        &[],
    )
}

fn is_invocation(table: &Table) -> bool
    ensures exact { IsTrue result → table.now ≡ tables.invocation }
    ensures complete { table.now ≡ tables.invocation → IsTrue result }
{
    is_table(
        table,
        1,
        "invocation",
        &[
            required("id", Kind::Text),
            required("object", Kind::Text),
            required("version", Kind::Integer),
            required("seed", Kind::Integer),
            required("mode", Kind::Integer),
            optional("open_object", Kind::Text),
            optional("suspension", Kind::Blob),
            optional("handed", Kind::Integer),
            optional("closing", Kind::Integer),
            optional("answer", Kind::Blob),
            optional("error_code", Kind::Integer),
            optional("error_behavior", Kind::Integer),
            optional("error_delay", Kind::Integer),
            optional("error_message", Kind::Text),
            required("attempts", Kind::Integer),
            required("attempts_since_entry", Kind::Integer),
            required("first_moment", Kind::Integer),
            required("last_completion", Kind::Integer),
            required("entries", Kind::Integer),
            optional("heard", Kind::Integer),
            required("arrivals", Kind::Integer),
            required("awake", Kind::Integer),
        ],
        &[&[1]],
    )
}

fn is_entry(table: &Table) -> bool
    ensures exact { IsTrue result → table.now ≡ tables.entry }
    ensures complete { table.now ≡ tables.entry → IsTrue result }
{
    is_table(
        table,
        0,
        "entry",
        &[
            required("invocation", Kind::Text),
            required("place", Kind::Integer),
            required("kind", Kind::Integer),
            required("payload", Kind::Blob),
            optional("completion", Kind::Integer),
            optional("second_completion", Kind::Integer),
            optional("answered", Kind::Integer),
            optional("arrival", Kind::Integer),
            required("moment", Kind::Integer),
        ],
        &[],
    )
}

fn is_state(table: &Table) -> bool
    ensures exact { IsTrue result → table.now ≡ tables.state_table }
    ensures complete { table.now ≡ tables.state_table → IsTrue result }
{
    is_table(
        table,
        5,
        "state",
        &[
            required("object", Kind::Text),
            required("key", Kind::Blob),
            required("value", Kind::Blob),
        ],
        &[&[1, 2]],
    )
}

fn is_sleep(table: &Table) -> bool
    ensures exact { IsTrue result → table.now ≡ tables.sleep_table }
    ensures complete { table.now ≡ tables.sleep_table → IsTrue result }
{
    is_table(
        table,
        4,
        "sleep",
        &[
            required("moment", Kind::Integer),
            required("invocation", Kind::Text),
            required("completion", Kind::Integer),
        ],
        &[],
    )
}

fn are_tables(tables: &[Table]) -> bool
    ensures exact { IsTrue result → tables.now ≡ store_schema.tables }
    ensures complete { tables.now ≡ store_schema.tables → IsTrue result }
{
    let [entry, others @ ..] = tables else {
        return false;
    };
    let [invocation, others @ ..] = others else {
        return false;
    };
    let [meta, others @ ..] = others else {
        return false;
    };
    let [sleep, others @ ..] = others else {
        return false;
    };
    let [state, others @ ..] = others else {
        return false;
    };
    others.is_empty()
        && is_entry(entry)
        && is_invocation(invocation)
        && is_meta(meta)
        && is_sleep(sleep)
        && is_state(state)
}

/// An index that a store must have.
#[derive(Clone, Copy)]
pub struct WantedIndex {
    pub name: &'static str,
    pub tree: u32,
    pub table: u32,
    pub columns: &'static [usize],
    pub is_unique: bool,
}

fn have_indexes(indexes: &[Index], wanted: &[WantedIndex]) -> bool
    ensures exact { IsTrue result → indexes.now ≡ map wanted_index wanted.now }
    ensures complete { indexes.now ≡ map wanted_index wanted.now → IsTrue result }
{
    match (indexes, wanted) {
        ([], []) => true,
        ([first, rest @ ..], [want, wants @ ..]) => {
            is_index(
                first,
                want.name,
                want.tree,
                want.table,
                want.columns,
                want.is_unique,
            ) && have_indexes(rest, wants)
        }
        _ => false,
    }
}

/// The index of a key.
const fn of_key(name: &'static str, tree: u32, table: u32, columns: &'static [usize]) -> WantedIndex
    ensures { result ≡ record { name = name.entry; tree = tree; table = table; columns = columns.entry; is_unique = true } }
{
    WantedIndex {
        name,
        tree,
        table,
        columns,
        is_unique: true,
    }
}

/// An index by which rows are only looked up.
const fn to_look_up(
    name: &'static str,
    tree: u32,
    table: u32,
    columns: &'static [usize],
) -> WantedIndex
    ensures { result ≡ record { name = name.entry; tree = tree; table = table; columns = columns.entry; is_unique = false } }
{
    WantedIndex {
        name,
        tree,
        table,
        columns,
        is_unique: false,
    }
}

fn are_indexes(indexes: &[Index]) -> bool
    ensures exact { IsTrue result → indexes.now ≡ store_schema.indexes }
    ensures complete { indexes.now ≡ store_schema.indexes → IsTrue result }
{
    have_indexes(
        indexes,
        &[
            of_key("sqlite_autoindex_invocation_1", 2, 1, &[1]),
            of_key("sqlite_autoindex_state_1", 6, 5, &[1, 2]),
            to_look_up("invocation_by_open_object", 7, 1, &[6]),
            to_look_up("invocation_by_awake", 8, 1, &[22]),
            to_look_up("entry_by_place", 9, 0, &[1, 2]),
            to_look_up("entry_by_completion", 10, 0, &[1, 5]),
            to_look_up("entry_by_second_completion", 11, 0, &[1, 6]),
            to_look_up("entry_by_answered", 12, 0, &[1, 7]),
            to_look_up("entry_by_arrival", 13, 0, &[1, 8]),
            to_look_up("sleep_by_invocation", 14, 4, &[2, 3]),
            to_look_up("sleep_by_moment", 15, 4, &[1]),
        ],
    )
}

/// Whether they are the tables and indexes that `create` makes.
pub fn is_store_schema(schema: &Schema) -> bool
    ensures exact { IsTrue result → schema.now ≡ store_schema }
    ensures complete { schema.now ≡ store_schema → IsTrue result }
{
    are_tables(schema.tables.as_slice())
        && are_indexes(schema.indexes.as_slice())
        && schema.views.is_empty()
}

/// Whether there is nothing in it.
pub fn is_empty_schema(schema: &Schema) -> bool
    ensures exact { IsTrue result → schema.now ≡ no_schema }
    ensures complete { schema.now ≡ no_schema → IsTrue result }
{
    schema.tables.is_empty() && schema.indexes.is_empty() && schema.views.is_empty()
}
