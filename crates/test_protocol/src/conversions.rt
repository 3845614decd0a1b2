//! Rows of what handlers hand out and take, as records there and back.
//!
//! - `failure PAYLOAD`: the code that a handler takes of a failure, and the record of that failure.
//! - `arrived PAYLOAD`: the code of a failure that arrives, and how many pairs it has.
//! - `output PAYLOAD`: the output whose result is the record of the value that this output's result is.
//! - `headers PAYLOAD`: the input with the records of the headers that its headers are.
use crate::operands::record;
use crate::records::record_told;
use journal_protocol::messages::{
    Failure, InputCommandMessage, OutputCommandMessage, OutputCommandResult,
};
use journal_protocol::{
    to_failure, to_failure_record, to_header_records, to_headers, to_non_empty_value,
    to_output_result, to_terminal_failure,
};
use std::alloc::Global;

fn failure(alloc: Global, payload: &str) -> Option<String> {
    let taken = to_terminal_failure(alloc, record(alloc, payload)?).ok()?;
    let code = taken.code;
    let recorded: Failure = to_failure_record(alloc, taken).ok()?;
    let told = record_told(alloc, &recorded)?;
    format!(in alloc; "{code}: {told}").ok()
}

fn arrived(alloc: Global, payload: &str) -> Option<String> {
    let told = to_failure(alloc, record(alloc, payload)?).ok()?;
    let (code, pairs) = (told.code, told.metadata.len());
    drop(told);
    format!(in alloc; "{code} {pairs}").ok()
}

fn there_and_back(alloc: Global, recorded: OutputCommandResult) -> Option<OutputCommandResult> {
    let value = to_non_empty_value(alloc, recorded).ok()?;
    to_output_result(alloc, value).ok()
}

fn output(alloc: Global, payload: &str) -> Option<String> {
    let OutputCommandMessage {
        name,
        result: recorded,
    } = record(alloc, payload)?;
    let output = OutputCommandMessage {
        name,
        result: there_and_back(alloc, recorded?),
    };
    let told = record_told(alloc, &output);
    drop(output);
    told
}

fn headers(alloc: Global, payload: &str) -> Option<String> {
    let InputCommandMessage {
        headers,
        name,
        value,
    } = record(alloc, payload)?;
    let headers = to_headers(alloc, headers).ok()?;
    let input = InputCommandMessage {
        headers: to_header_records(alloc, headers).ok()?,
        name,
        value,
    };
    let told = record_told(alloc, &input);
    drop(input);
    told
}

pub fn answer(alloc: Global, operation: &str, operands: &[&str]) -> Option<String> {
    let [payload] = operands else {
        return None;
    };
    match operation {
        "failure" => failure(alloc, *payload),
        "arrived" => arrived(alloc, *payload),
        "output" => output(alloc, *payload),
        "headers" => headers(alloc, *payload),
        _ => None,
    }
}
