// Between the records of messages and the values that handlers speak in.
ghost use Rattle.std.specs.Prelude.{◌≡◌, map, IfOk};
ghost use Rattle.protocol_stream.specs.Records.{header_record, header_told, pair_record, pair_told, arrived_failure_record, failure_record, failure_told, terminal_failure_told, result_record, result_told};

use bytes::ByteStr;
use journal_model::{Failure, Header, NonEmptyValue, TerminalFailure};
use protocol_records::{
    Failure as FailureRecord, FailureMetadata, Header as HeaderRecord, OutputCommandResult,
    Value as ValueRecord,
};
use sequence::Sequence;
use std::alloc::{AllocError, Global};

/// The code that stands for one of more than sixteen bits: an internal error.
const INTERNAL: u16 = 500;

/// The record of a header.
pub fn to_header_record(header: Header) -> HeaderRecord
    ensures { result ≡ header_record header }
{
    let Header { key, value } = header;
    HeaderRecord { key, value }
}

/// What the record of a header says.
pub fn to_header(header: HeaderRecord) -> Header
    ensures { result ≡ header_told header }
{
    let HeaderRecord { key, value } = header;
    Header { key, value }
}

/// The records of headers, in their order.
pub fn to_header_records(
    alloc: Global,
    headers: Sequence<Header>,
) -> Result<Sequence<HeaderRecord>, AllocError>
    ensures { IfOk result (λ records. records ≡ map header_record headers) }
{
    let records: Vec<HeaderRecord> = headers
        .into_vec()
        .into_iter()
        .map(|header| to_header_record(header))
        .collect(alloc)?;
    Ok(Sequence::from_vec(records))
}

/// What the records of headers say, in their order.
pub fn to_headers(
    alloc: Global,
    records: Sequence<HeaderRecord>,
) -> Result<Sequence<Header>, AllocError>
    ensures { IfOk result (λ headers. headers ≡ map header_told records) }
{
    let headers: Vec<Header> = records
        .into_vec()
        .into_iter()
        .map(|recorded| to_header(recorded))
        .collect(alloc)?;
    Ok(Sequence::from_vec(headers))
}

fn pair_records(
    alloc: Global,
    pairs: Sequence<(ByteStr, ByteStr)>,
) -> Result<Sequence<FailureMetadata>, AllocError>
    ensures { IfOk result (λ records. records ≡ map pair_record pairs) }
{
    let records: Vec<FailureMetadata> = pairs
        .into_vec()
        .into_iter()
        .map(|(key, value)| FailureMetadata { key, value })
        .collect(alloc)?;
    Ok(Sequence::from_vec(records))
}

fn pairs_told(
    alloc: Global,
    records: Sequence<FailureMetadata>,
) -> Result<Sequence<(ByteStr, ByteStr)>, AllocError>
    ensures { IfOk result (λ pairs. pairs ≡ map pair_told records) }
{
    let pairs: Vec<(ByteStr, ByteStr)> = records
        .into_vec()
        .into_iter()
        .map(|FailureMetadata { key, value }| (key, value))
        .collect(alloc)?;
    Ok(Sequence::from_vec(pairs))
}

/// The record of a failure that a handler hands out.
pub fn to_failure_record(
    alloc: Global,
    failure: TerminalFailure,
) -> Result<FailureRecord, AllocError>
    ensures { IfOk result (λ recorded. recorded ≡ failure_record failure) }
{
    let TerminalFailure {
        code,
        message,
        metadata,
    } = failure;
    Ok(FailureRecord {
        code: u32::from(code),
        message,
        metadata: pair_records(alloc, metadata)?,
    })
}

/// The record of a failure that arrives.
pub fn to_arrived_failure_record(
    alloc: Global,
    failure: Failure,
) -> Result<FailureRecord, AllocError>
    ensures { IfOk result (λ recorded. recorded ≡ arrived_failure_record failure) }
{
    let Failure {
        code,
        message,
        metadata,
    } = failure;
    Ok(FailureRecord {
        code,
        message,
        metadata: pair_records(alloc, metadata)?,
    })
}

/// What the record of a failure says.
pub fn to_failure(alloc: Global, recorded: FailureRecord) -> Result<Failure, AllocError>
    ensures { IfOk result (λ failure. failure ≡ failure_told recorded) }
{
    let FailureRecord {
        code,
        message,
        metadata,
    } = recorded;
    Ok(Failure {
        code,
        message,
        metadata: pairs_told(alloc, metadata)?,
    })
}

/// The failure that a handler takes of a record: a code of more than sixteen bits becomes 500.
pub fn to_terminal_failure(
    alloc: Global,
    recorded: FailureRecord,
) -> Result<TerminalFailure, AllocError>
    ensures { IfOk result (λ failure. failure ≡ terminal_failure_told recorded) }
{
    let FailureRecord {
        code,
        message,
        metadata,
    } = recorded;
    Ok(TerminalFailure {
        code: u16::try_from(code).unwrap_or(INTERNAL),
        message,
        metadata: pairs_told(alloc, metadata)?,
    })
}

/// What an output command holds of the value that a handler hands out.
pub fn to_output_result(
    alloc: Global,
    value: NonEmptyValue,
) -> Result<OutputCommandResult, AllocError>
    ensures { IfOk result (λ recorded. recorded ≡ result_record value) }
{
    match value {
        NonEmptyValue::Success(content) => Ok(OutputCommandResult::Value(ValueRecord { content })),
        NonEmptyValue::Failure(failure) => Ok(OutputCommandResult::Failure(to_failure_record(
            alloc, failure,
        )?)),
    }
}

/// The value that an output command holds.
pub fn to_non_empty_value(
    alloc: Global,
    recorded: OutputCommandResult,
) -> Result<NonEmptyValue, AllocError>
    ensures { IfOk result (λ value. value ≡ result_told recorded) }
{
    match recorded {
        OutputCommandResult::Value(ValueRecord { content }) => Ok(NonEmptyValue::Success(content)),
        OutputCommandResult::Failure(failure) => {
            Ok(NonEmptyValue::Failure(to_terminal_failure(alloc, failure)?))
        }
    }
}
