//! What no call of a store reaches so far: the state of an object is written, the records of a journal are listed, and a signal is
//! made ready.
use crate::database::{leave, open_memory};
use crate::fault::Fault;
use crate::words::parse_new;
use bytes::{ByteStr, Bytes};
use journal_model::{Notification, NotificationId, NotificationResult};
use protocol_stream::MessageType;
use sqlite::MemStore;
use std::alloc::Global;
use store_arrivals::prepare_arrival;
use store_tables::{
    InvocationRow, StateRow, StoreTables, Write, commit_all, invocation_by_id, is_ready, journal,
    states_of,
};
use test_rows::Hex;

type Tables = StoreTables<MemStore>;

fn i1() -> ByteStr {
    ByteStr::from_static("i1")
}

fn object() -> ByteStr {
    ByteStr::from_static("o")
}

/// The tables of a store with one invocation.
fn tables_of(alloc: Global) -> Result<Tables, Fault> {
    let mut store = open_memory(alloc)?;
    let is_invoked = match parse_new(alloc, &["i1", "o", "7", "whole", "1", "-"]) {
        Ok(new) => store.invoke(new).is_ok(),
        Err(_) => false,
    };
    let connection = store.into_connection();
    if !is_invoked || !is_ready(&connection) {
        leave(Some(connection));
        return Err(Fault::Memory);
    }
    Ok(StoreTables::of(alloc, connection))
}

fn put(key: &'static [u8], value: &'static [u8]) -> Write {
    Write::PutState(StateRow {
        object: object(),
        key: Bytes::from_static(key),
        value: Bytes::from_static(value),
    })
}

fn len_at(states: &[StateRow], key: &[u8]) -> Option<usize> {
    for state in states {
        if state.key.as_slice() == key {
            return Some(state.value.len());
        }
    }
    None
}

/// How many values the object's state has, and how many bytes that of the key `k`.
fn look(tables: &mut Tables) -> (Option<usize>, Option<usize>) {
    match states_of(tables, &object()) {
        Ok(states) => {
            let seen = (Some(states.len()), len_at(states.as_slice(), b"k"));
            drop(states);
            seen
        }
        Err(_) => (None, None),
    }
}

/// Writes to the state of the object, and prints what it is then.
fn print_write<R: Print>(
    rt: &R,
    tables: &mut Tables,
    name: &str,
    write: Write,
) -> Result<(), Fault> {
    let writes = [write];
    let is_written = commit_all(tables, &writes).is_ok();
    drop(writes);
    let (count, len) = look(tables);
    Ok(println!(rt; "{name} -> {is_written} values {count:?} bytes of k {len:?}")?)
}

fn print_states<R: Print>(rt: &R, tables: &mut Tables) -> Result<(), Fault> {
    print_write(rt, tables, "put k", put(b"k", b""))?;
    print_write(rt, tables, "put j", put(b"j", b"x"))?;
    print_write(rt, tables, "put k again", put(b"k", b"xyz"))?;
    let drop_one = Write::DropState {
        object: object(),
        key: Bytes::from_static(b"k"),
    };
    print_write(rt, tables, "drop k", drop_one)?;
    print_write(rt, tables, "put k", put(b"k", b""))?;
    let drop_all = Write::DropStates { object: object() };
    print_write(rt, tables, "drop all", drop_all)
}

/// The number of the type of the entry at a place.
fn kind_at(tables: &mut Tables, place: usize) -> Option<u16> {
    match journal(tables, &i1()) {
        Ok(entries) => {
            let kind = match entries.get(place) {
                Some(entry) => Some(u16::from(entry.kind)),
                None => None,
            };
            drop(entries);
            kind
        }
        Err(_) => None,
    }
}

fn print_found<R: Print>(rt: &R, tables: &mut Tables) -> Result<(), Fault> {
    let first = kind_at(tables, 0);
    let second = kind_at(tables, 1);
    Ok(println!(rt; "kind at 0 {first:?} at 1 {second:?}")?)
}

fn row_of(tables: &mut Tables) -> Option<InvocationRow> {
    match invocation_by_id(tables, &i1()) {
        Ok(row) => row,
        Err(_) => None,
    }
}

/// The payload of the entry that is written first.
fn first_payload(writes: &[Write]) -> &[u8] {
    match writes.first() {
        Some(Write::AddEntry(entry)) => entry.payload.as_slice(),
        _ => &[],
    }
}

/// Makes the signal 17 ready, and prints its place and its payload.
fn print_signal<R: Print>(rt: &R, alloc: Global, tables: &mut Tables) -> Result<(), Fault> {
    let row = row_of(tables).ok_or(Fault::Memory)?;
    let signal = Notification {
        id: NotificationId::SignalId(17),
        result: NotificationResult::Void,
    };
    match prepare_arrival(alloc, row, MessageType::SignalNotification, signal) {
        Ok(made) => {
            let payload = Hex(first_payload(made.writes.as_slice()));
            let printed = println!(rt; "signal 17 -> place {} {payload}", made.place);
            drop(made);
            Ok(printed?)
        }
        Err(_) => Err(Fault::Memory),
    }
}

fn print_all<R: Print>(rt: &R, alloc: Global, tables: &mut Tables) -> Result<(), Fault> {
    print_states(rt, tables)?;
    print_found(rt, tables)?;
    print_signal(rt, alloc, tables)
}

/// Writes and finds records, and prints what is found.
pub fn run_tables<R: Print + AllocGlobal>(rt: &R) -> Result<(), Fault> {
    let mut tables = tables_of(rt.alloc())?;
    let printed = print_all(rt, rt.alloc(), &mut tables);
    leave(Some(tables.into_connection()));
    printed
}
