// Does what a call brings fit? A type says so of each text and number in it; here it is said of all of them together, by functions that
// look at each and change nothing.
ghost use Rattle.std.specs.Prelude.{◌<◌, ◌^◌, IsUtf8, map, Some};
ghost use Rattle.std.specs.List.{AllByRecursion};
ghost use Rattle.journal_model.specs.Journal.{id_of_signal};
ghost use Rattle.protocol_controls.specs.Notification.{NotificationFits, NotificationMessageIdFits, NotificationMessageResultFits};
ghost use Rattle.protocol_controls.specs.declared.notification.NotificationMessageId.TheVariants.{CompletionId};
ghost use Rattle.protocol_records.specs.Failure.{FailureFits};
ghost use Rattle.protocol_records.specs.FailureMetadata.{FailureMetadataFits};
ghost use Rattle.protocol_records.specs.Header.{HeaderFits};
ghost use Rattle.protocol_records.specs.InputCommand.{InputCommandFits};
ghost use Rattle.protocol_laws.specs.Records.{id_record, result_record};
ghost use Rattle.protocol_stream.specs.Records.{arrived_failure_record, header_record, input_record, pair_record};
ghost use Rattle.protocol_wire.specs.declared.record.TheConstants.{LEVELS};
ghost use Rattle.schedule_model.specs.ArgumentBounds.{ResultFits, signal_arrival};

use bytes::ByteStr;
use journal_model::{Failure, Header, NewInvocation, NotificationResult, SignalKey};
use protocol_records::fits::{long_fits, short_fits, text_fits};

fn header_fits(header: &Header)
    ensures { HeaderFits 100 (header_record header.now) }
{
    text_fits(&header.key);
    text_fits(&header.value);
}

fn headers_fit(headers: &[Header])
    ensures { AllByRecursion (HeaderFits 100) (map header_record headers.now) }
{
    for header in headers {
        header_fits(header);
    }
}

fn pair_fits(pair: &(ByteStr, ByteStr))
    ensures { FailureMetadataFits 99 (pair_record pair.now) }
{
    text_fits(&pair.0);
    text_fits(&pair.1);
}

fn pairs_fit(pairs: &[(ByteStr, ByteStr)])
    ensures { AllByRecursion (FailureMetadataFits 99) (map pair_record pairs.now) }
{
    for pair in pairs {
        pair_fits(pair);
    }
}

fn failure_fits(failure: &Failure)
    ensures { FailureFits 100 (arrived_failure_record failure.now) }
{
    short_fits(failure.code);
    text_fits(&failure.message);
    pairs_fit(failure.metadata.as_slice());
}

fn value_fits(value: &NotificationResult)
    ensures { NotificationMessageResultFits 100 (Some (result_record value.now)) }
{
    match value {
        NotificationResult::Failure(failure) => failure_fits(failure),
        NotificationResult::InvocationId(id) => text_fits(id),
        NotificationResult::Void
        | NotificationResult::Value(_)
        | NotificationResult::StateKeys(_) => (),
    }
}

/// Its numbers are within their types, and its texts are UTF-8.
pub fn invocation_fits(new: &NewInvocation)
    ensures id { IsUtf8 new.now.id }
    ensures object { IsUtf8 new.now.object }
    ensures seed { new.now.seed < 2 ^ 64 }
    ensures input { InputCommandFits LEVELS (input_record new.now.headers new.now.input) }
{
    text_fits(&new.id);
    text_fits(&new.object);
    long_fits(new.seed);
    headers_fit(new.headers.as_slice());
}

/// So it is of a result that comes for this completion.
pub fn result_fits(completion: u32, value: &NotificationResult)
    ensures { NotificationFits LEVELS (record { id = Some (CompletionId completion); result = Some (result_record value.now) }) }
{
    short_fits(completion);
    value_fits(value);
}

fn key_fits(key: &SignalKey)
    ensures { NotificationMessageIdFits 100 (Some (id_record (id_of_signal key.now))) }
{
    match key {
        SignalKey::ByIndex(number) => short_fits(*number),
        SignalKey::ByName(name) => text_fits(name),
    }
}

/// So it is of a signal.
pub fn signal_fits(key: &SignalKey, value: &NotificationResult)
    ensures { ResultFits (signal_arrival key.now value.now) }
{
    key_fits(key);
    value_fits(value);
}
