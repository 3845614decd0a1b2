//! Rows of records: what payloads are read as, and which are refused.
//!
//! - `again TYPE PAYLOAD`: the canonical payload of what is read, behind its length.
//! - `merge TYPE PAYLOAD MORE`: the same when more was merged in, or when it was refused.
//! - `every PAYLOAD`: of how many types it is a record without a field, and for how many it is refused.
use crate::every_record::{EVERY_TYPE, about_type, type_named};
use crate::operands::{Hex, bytes, record};
use journal_protocol::wire::{DecodeError, Record, RecordType, decode, encode, encoded_len, merge};
use std::alloc::Global;

/// Tells a record: how long its canonical payload is said to be, and that payload.
pub fn record_told<R: Record>(alloc: Global, record: &R) -> Option<String> {
    let payload = encode(alloc, record).ok()?;
    let length = encoded_len(record)?;
    let payload = Hex(payload.as_slice());
    format!(in alloc; "{length} {payload}").ok()
}

/// Tells why a payload is refused.
pub fn refusal_told(alloc: Global, error: DecodeError) -> Option<String> {
    match error {
        DecodeError::Fault(fault) => format!(in alloc; "refused {fault:?}").ok(),
        DecodeError::Memory => None,
    }
}

fn read_again<R: Record>(alloc: Global, payload: &str) -> Option<String> {
    let payload = bytes(alloc, payload)?;
    match decode::<R>(alloc, payload.as_slice()) {
        Ok(record) => {
            let told = record_told(alloc, &record);
            drop(record);
            told
        }
        Err(error) => refusal_told(alloc, error),
    }
}

fn read_and_merged<R: Record>(alloc: Global, payload: &str, more: &str) -> Option<String> {
    let more = bytes(alloc, more)?;
    let mut record: R = record(alloc, payload)?;
    let word = match merge(alloc, &mut record, more.as_slice()) {
        Ok(()) => "merged",
        Err(_) => "refused, still",
    };
    let told = record_told(alloc, &record);
    drop(record);
    let told = told?;
    format!(in alloc; "{word} {told}").ok()
}

/// Tells the record of a payload, with more merged in where there is more.
pub fn about<R: Record>(alloc: Global, payload: &str, more: Option<&str>) -> Option<String> {
    match more {
        None => read_again::<R>(alloc, payload),
        Some(more) => read_and_merged::<R>(alloc, payload, more),
    }
}

/// Of how many types a payload is a record without a field, and for how many it is refused.
#[derive(Clone, Copy)]
struct Counts {
    empty: u32,
    refused: u32,
}

fn count(alloc: Global, of: RecordType, payload: &str, counts: &mut Counts) -> Option<()> {
    let told = about_type(alloc, of, payload, None)?;
    if told.as_str() == "0 -" {
        counts.empty = counts.empty.wrapping_add(1);
    }
    if told.as_str() == "refused BadPayload" {
        counts.refused = counts.refused.wrapping_add(1);
    }
    Some(())
}

fn of_every_type(alloc: Global, payload: &str) -> Option<String> {
    let mut counts = Counts {
        empty: 0,
        refused: 0,
    };
    for of in EVERY_TYPE {
        count(alloc, of, payload, &mut counts)?;
    }
    let Counts { empty, refused } = counts;
    format!(in alloc; "empty {empty} refused {refused}").ok()
}

pub fn answer(alloc: Global, operation: &str, operands: &[&str]) -> Option<String> {
    match operands {
        [payload] if operation == "every" => of_every_type(alloc, *payload),
        [name, payload] if operation == "again" => {
            about_type(alloc, type_named(alloc, *name)?, *payload, None)
        }
        [name, payload, more] if operation == "merge" => {
            about_type(alloc, type_named(alloc, *name)?, *payload, Some(*more))
        }
        _ => None,
    }
}
