//! Rows of whole messages.
//!
//! - `as TYPE PLACE FRAME`: the record of a message that is asked for as this type, at this place; told as in the rows of records.
//! - `decoded TYPE PAYLOAD`, `joined TYPE PAYLOAD MORE`: a message without its header, and one that is merged with more.
//! - `notified PAYLOAD`: the id and the result of a notification.
//! - `encode VERSION TYPE PAYLOAD`: the frame that the record of this payload is written as.
//! - `notify VERSION NUMBER PAYLOAD`: the frame of a notification of the type of this number.
use crate::operands::{Hex, bytes, message_type, record, shown, version};
use crate::records::refusal_told;
use bytes::Bytes;
use journal_protocol::messages::{
    NotificationMessage, ProposeRunCompletionMessage, RunCommandMessage, SetStateCommandMessage,
    SleepCommandMessage, SuspensionMessage, SuspensionMessageV6,
};
use journal_protocol::wire::DecodeError;
use journal_protocol::{
    Decoder, Encoder, EncodingError, Notification, NotificationId, NotificationResult, RawMessage,
    RawMessageExt, RestateEncodableMessage, RestateMessage, encode_record, is_failure,
};
use std::alloc::Global;

/// The message at the front of these bytes.
pub fn first_message(alloc: Global, frame: &str) -> Option<RawMessage> {
    let frame = bytes(alloc, frame)?;
    let mut decoder = Decoder::new(alloc);
    decoder.push(frame.as_slice()).ok()?;
    decoder.consume_next().ok()?
}

/// Tells a message: how long its payload is said to be, and its canonical payload.
fn message_told<M: RestateMessage>(alloc: Global, message: &M) -> Option<String> {
    let payload = message.encode_to_vec(alloc).ok()?;
    let length = message.encoded_len()?;
    let payload = Hex(payload.as_slice());
    format!(in alloc; "{length} {payload}").ok()
}

fn read_as<M: RestateMessage>(alloc: Global, place: i64, message: &RawMessage) -> Option<String> {
    match message.decode_to::<M>(alloc, place) {
        Ok(record) => {
            let told = message_told(alloc, &record);
            drop(record);
            told
        }
        Err(error) => shown(alloc, error),
    }
}

fn asked_for(alloc: Global, operands: &[&str]) -> Option<String> {
    let [name, place, frame] = operands else {
        return None;
    };
    let place: i64 = place.parse().ok()?;
    let message = first_message(alloc, *frame)?;
    match *name {
        "SleepCommand" => read_as::<SleepCommandMessage>(alloc, place, &message),
        "RunCommand" => read_as::<RunCommandMessage>(alloc, place, &message),
        "SetStateCommand" => read_as::<SetStateCommandMessage>(alloc, place, &message),
        "Suspension" => read_as::<SuspensionMessage>(alloc, place, &message),
        "SuspensionV6" => read_as::<SuspensionMessageV6>(alloc, place, &message),
        _ => None,
    }
}

fn sleep_told(alloc: Global, read: Result<SleepCommandMessage, DecodeError>) -> Option<String> {
    match read {
        Ok(sleep) => {
            let told = message_told(alloc, &sleep);
            drop(sleep);
            told
        }
        Err(error) => refusal_told(alloc, error),
    }
}

fn decoded(alloc: Global, operands: &[&str]) -> Option<String> {
    let [payload] = operands else {
        return None;
    };
    let payload = bytes(alloc, *payload)?;
    sleep_told(
        alloc,
        SleepCommandMessage::decode(alloc, payload.as_slice()),
    )
}

fn joined(alloc: Global, operands: &[&str]) -> Option<String> {
    let [payload, more] = operands else {
        return None;
    };
    let more = bytes(alloc, *more)?;
    let sleep: SleepCommandMessage = record(alloc, *payload)?;
    sleep_told(alloc, sleep.merge(alloc, more.as_slice()))
}

fn result_word(brought: &NotificationResult) -> &'static str {
    if is_failure(brought) {
        return "failure";
    }
    match brought {
        NotificationResult::Void => "void",
        _ => "another",
    }
}

fn notification_told(alloc: Global, told: &Notification) -> Option<String> {
    let brought = result_word(&told.result);
    match &told.id {
        NotificationId::CompletionId(id) => format!(in alloc; "completion {id} {brought}").ok(),
        NotificationId::SignalId(id) => format!(in alloc; "signal {id} {brought}").ok(),
        NotificationId::SignalName(name) => format!(in alloc; "signal {name:?} {brought}").ok(),
    }
}

fn notified(alloc: Global, operands: &[&str]) -> Option<String> {
    let [frame] = operands else {
        return None;
    };
    let message = first_message(alloc, *frame)?;
    let told = message.decode_as_notification(alloc);
    drop(message);
    match told {
        Ok(notification) => {
            let told = notification_told(alloc, &notification);
            drop(notification);
            told
        }
        Err(error) => shown(alloc, error),
    }
}

fn frame_told(alloc: Global, frame: Result<Bytes, EncodingError>) -> Option<String> {
    match frame {
        Ok(frame) => {
            let frame = Hex(frame.as_slice());
            format!(in alloc; "{frame}").ok()
        }
        Err(error) => shown(alloc, error),
    }
}

fn encoded<M: RestateMessage + RestateEncodableMessage>(
    alloc: Global,
    encoder: Encoder,
    payload: &str,
) -> Option<String> {
    let record: M = record(alloc, payload)?;
    let frame = encoder.encode(alloc, &record);
    drop(record);
    frame_told(alloc, frame)
}

fn encoded_as(alloc: Global, operands: &[&str]) -> Option<String> {
    let [of, name, payload] = operands else {
        return None;
    };
    let encoder = Encoder::new(version(*of)?);
    match *name {
        "SleepCommand" => encoded::<SleepCommandMessage>(alloc, encoder, *payload),
        "Suspension" => encoded::<SuspensionMessage>(alloc, encoder, *payload),
        "ProposeRunCompletion" => {
            encoded::<ProposeRunCompletionMessage>(alloc, encoder, *payload)
        }
        _ => None,
    }
}

fn notification_encoded(alloc: Global, operands: &[&str]) -> Option<String> {
    let [of, ty, payload] = operands else {
        return None;
    };
    let (version, ty) = (version(*of)?, message_type(*ty)?);
    let record: NotificationMessage = record(alloc, *payload)?;
    let frame = encode_record(alloc, ty, &record, version);
    drop(record);
    frame_told(alloc, frame)
}

pub fn answer(alloc: Global, operation: &str, operands: &[&str]) -> Option<String> {
    match operation {
        "as" => asked_for(alloc, operands),
        "decoded" => decoded(alloc, operands),
        "joined" => joined(alloc, operands),
        "notified" => notified(alloc, operands),
        "encode" => encoded_as(alloc, operands),
        "notify" => notification_encoded(alloc, operands),
        _ => None,
    }
}
