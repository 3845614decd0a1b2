// The journal: made, and taken apart.
use crate::fault::Fault;
use crate::machine::handler::{begin, write};
use crate::protocol::{append, read_as, write as write_record};
use bytes::{ByteStr, Bytes};
use invocation_vm::VM;
use journal_protocol::messages::{
    CallCommandMessage, NotificationMessage, NotificationMessageId, NotificationMessageResult,
    SleepCommandMessage, StartMessage, Value, Void,
};
use journal_protocol::{
    Decoder, MessageType, RawMessage, RawMessageExt, Sequence, Version, encode_record,
};
use std::alloc::Global;

fn start(alloc: Global, known_entries: u32) -> Result<Bytes, Fault> {
    let message = StartMessage {
        id: Bytes::from_static(b"inv_1"),
        debug_id: ByteStr::from_static("inv_1"),
        known_entries,
        state_map: Sequence::new(alloc),
        partial_state: false,
        key: ByteStr::new(),
        retry_count_since_last_stored_entry: 0,
        duration_since_last_stored_entry: 0,
        random_seed: 0,
        scope: None,
        limit_key: None,
        idempotency_key: None,
    };
    let frame = write_record(alloc, &message);
    drop(message);
    frame
}

/// The frame of an input with no value.
const INPUT: &[u8] = b"\x04\x00\x00\x00\x00\x00\x00\x02\x72\x00";

fn put_notification(
    alloc: Global,
    out: &mut Vec<u8>,
    ty: MessageType,
    completion_id: u32,
    brought: NotificationMessageResult,
) -> Result<(), Fault> {
    let message = NotificationMessage {
        id: Some(NotificationMessageId::CompletionId(completion_id)),
        result: Some(brought),
    };
    let frame = encode_record(alloc, ty, &message, Version::V7);
    drop(message);
    append(out, frame?)
}

// A sleep takes one completion id, a call two.
fn put_results(alloc: Global, out: &mut Vec<u8>, first: u32) -> Result<(), Fault> {
    let (second, third) = (first.wrapping_add(1), first.wrapping_add(2));
    let ty = MessageType::SleepCompletionNotification;
    let slept = NotificationMessageResult::Void(Void {});
    put_notification(alloc, out, ty, first, slept)?;
    let ty = MessageType::CallInvocationIdCompletionNotification;
    let id = NotificationMessageResult::InvocationId(ByteStr::from_static("inv_2"));
    put_notification(alloc, out, ty, second, id)?;
    let ty = MessageType::CallCompletionNotification;
    let answer = NotificationMessageResult::Value(Value {
        content: Bytes::from_static(b"\"Hello, Ada\""),
    });
    put_notification(alloc, out, ty, third, answer)
}

fn write_anew<V: VM>(alloc: Global, vm: &mut V, count: u32) -> Result<Bytes, Fault> {
    vm.notify_input(start(alloc, 1)?);
    vm.notify_input(Bytes::from_static(INPUT));
    drop(vm.sys_input()?);
    write(alloc, vm, count)
}

// The frames of so many sleeps and calls, as the machine writes them.
fn commands<V: VM + Drop>(alloc: Global, count: u32) -> Result<Bytes, Fault> {
    let mut vm: V = begin(alloc)?;
    let written = write_anew(alloc, &mut vm, count);
    drop(vm);
    written
}

/// Puts a journal of so many sleeps and calls, and their results behind them.
pub fn put_calls<V: VM + Drop>(alloc: Global, out: &mut Vec<u8>, count: u32) -> Result<(), Fault> {
    let entries = count.saturating_mul(5).saturating_add(1);
    append(out, start(alloc, entries)?)?;
    out.extend_from_slice(INPUT)?;
    append(out, commands::<V>(alloc, count)?)?;
    for at in 0..count {
        put_results(alloc, out, at.wrapping_mul(3).wrapping_add(1))?;
    }
    Ok(())
}

fn decode_one(alloc: Global, message: &RawMessage) -> Result<(), Fault> {
    match message.ty() {
        MessageType::SleepCommand => read_as::<SleepCommandMessage>(alloc, message),
        MessageType::CallCommand => read_as::<CallCommandMessage>(alloc, message),
        ty if ty.is_notification() => {
            drop(message.decode_as_notification(alloc)?);
            Ok(())
        }
        _ => Ok(()),
    }
}

/// Decodes all of a journal and lets it go.
pub fn decode(alloc: Global, journal: &[u8]) -> Result<(), Fault> {
    let mut decoder = Decoder::new(alloc);
    decoder.push(journal)?;
    for _ in 0..u64::MAX {
        let Some(message) = decoder.consume_next()? else {
            break;
        };
        let decoded = decode_one(alloc, &message);
        drop(message);
        decoded?;
    }
    Ok(())
}
