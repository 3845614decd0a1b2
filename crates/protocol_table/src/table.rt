//! The one table of the records: each field's number and kind stand here alone. Checking, selecting and spelling read them here.

ghost use Rattle.std.specs.Prelude.{◌≡◌};
ghost use Rattle.protocol_table.specs.Table.{descriptors_of, kind_in};

macro_rules! field {
    ($number:literal $kind:expr) => { FieldDescriptor { number: $number, kind: $kind } };
}

pub mod attach_invocation_command;
pub mod awaiting_on;
pub mod call_command;
pub mod clear_all_state_command;
pub mod clear_state_command;
pub mod complete_awakeable_command;
pub mod complete_promise_command;
pub mod error;
pub mod failure;
pub mod failure_metadata;
pub mod future;
pub mod get_eager_state_command;
pub mod get_eager_state_keys_command;
pub mod get_invocation_output_command;
pub mod get_lazy_state_command;
pub mod get_lazy_state_keys_command;
pub mod get_promise_command;
pub mod get_state_ephemeral_command;
pub mod get_state_ephemeral_notification;
pub mod header;
pub mod idempotent_request_target;
pub mod input_command;
pub mod notification;
pub mod one_way_call_command;
pub mod output_command;
pub mod peek_promise_command;
pub mod propose_run_completion;
pub mod propose_run_completion_ack;
pub mod run_command;
pub mod send_signal_command;
pub mod set_state_command;
pub mod sleep_command;
pub mod start;
pub mod state_entry;
pub mod state_keys;
pub mod suspension;
pub mod suspension_v6;
pub mod value;
pub mod workflow_target;

/// A record type. All completion notifications and the signal notification are one.
#[derive(Clone, Copy, Debug)]
pub enum RecordType {
    AttachInvocationCommand,
    AwaitingOn,
    CallCommand,
    ClearAllStateCommand,
    ClearStateCommand,
    CompleteAwakeableCommand,
    CompletePromiseCommand,
    End,
    Error,
    Failure,
    FailureMetadata,
    Future,
    GetEagerStateCommand,
    GetEagerStateKeysCommand,
    GetInvocationOutputCommand,
    GetLazyStateCommand,
    GetLazyStateKeysCommand,
    GetPromiseCommand,
    GetStateEphemeralCommand,
    GetStateEphemeralNotification,
    Header,
    IdempotentRequestTarget,
    InputCommand,
    Notification,
    OneWayCallCommand,
    OutputCommand,
    PeekPromiseCommand,
    ProposeRunCompletion,
    ProposeRunCompletionAck,
    RunCommand,
    SendSignalCommand,
    SetStateCommand,
    SleepCommand,
    Start,
    StateEntry,
    StateKeys,
    Suspension,
    SuspensionV6,
    Value,
    Void,
    WorkflowTarget,
}

/// What a field is read from. Whether it is plain, optional or repeated makes no difference to what is accepted, except
/// that repeated numbers come packed or not.
#[derive(Clone, Copy, Debug)]
pub enum Kind {
    Number,
    Numbers,
    Bytes,
    Text,
    Record(RecordType),
}

/// A field of a record: the number that stands in its tag, and its kind.
#[derive(Clone, Copy, Debug)]
pub struct FieldDescriptor {
    pub number: u32,
    pub kind: Kind,
}

/// The fields of a record, in ascending order of their numbers.
pub fn fields_of(record_type: RecordType) -> &'static [FieldDescriptor]
    ensures { result.now ≡ descriptors_of record_type }
{
    match record_type {
        RecordType::AttachInvocationCommand => &attach_invocation_command::FIELDS,
        RecordType::AwaitingOn => &awaiting_on::FIELDS,
        RecordType::CallCommand => &call_command::FIELDS,
        RecordType::ClearAllStateCommand => &clear_all_state_command::FIELDS,
        RecordType::ClearStateCommand => &clear_state_command::FIELDS,
        RecordType::CompleteAwakeableCommand => &complete_awakeable_command::FIELDS,
        RecordType::CompletePromiseCommand => &complete_promise_command::FIELDS,
        RecordType::End => &[],
        RecordType::Error => &error::FIELDS,
        RecordType::Failure => &failure::FIELDS,
        RecordType::FailureMetadata => &failure_metadata::FIELDS,
        RecordType::Future => &future::FIELDS,
        RecordType::GetEagerStateCommand => &get_eager_state_command::FIELDS,
        RecordType::GetEagerStateKeysCommand => &get_eager_state_keys_command::FIELDS,
        RecordType::GetInvocationOutputCommand => &get_invocation_output_command::FIELDS,
        RecordType::GetLazyStateCommand => &get_lazy_state_command::FIELDS,
        RecordType::GetLazyStateKeysCommand => &get_lazy_state_keys_command::FIELDS,
        RecordType::GetPromiseCommand => &get_promise_command::FIELDS,
        RecordType::GetStateEphemeralCommand => &get_state_ephemeral_command::FIELDS,
        RecordType::GetStateEphemeralNotification => &get_state_ephemeral_notification::FIELDS,
        RecordType::Header => &header::FIELDS,
        RecordType::IdempotentRequestTarget => &idempotent_request_target::FIELDS,
        RecordType::InputCommand => &input_command::FIELDS,
        RecordType::Notification => &notification::FIELDS,
        RecordType::OneWayCallCommand => &one_way_call_command::FIELDS,
        RecordType::OutputCommand => &output_command::FIELDS,
        RecordType::PeekPromiseCommand => &peek_promise_command::FIELDS,
        RecordType::ProposeRunCompletion => &propose_run_completion::FIELDS,
        RecordType::ProposeRunCompletionAck => &propose_run_completion_ack::FIELDS,
        RecordType::RunCommand => &run_command::FIELDS,
        RecordType::SendSignalCommand => &send_signal_command::FIELDS,
        RecordType::SetStateCommand => &set_state_command::FIELDS,
        RecordType::SleepCommand => &sleep_command::FIELDS,
        RecordType::Start => &start::FIELDS,
        RecordType::StateEntry => &state_entry::FIELDS,
        RecordType::StateKeys => &state_keys::FIELDS,
        RecordType::Suspension => &suspension::FIELDS,
        RecordType::SuspensionV6 => &suspension_v6::FIELDS,
        RecordType::Value => &value::FIELDS,
        RecordType::Void => &[],
        RecordType::WorkflowTarget => &workflow_target::FIELDS,
    }
}

/// The kind of the field with this number, if the record has one.
pub fn kind_of(fields: &[FieldDescriptor], number: u32) -> Option<Kind>
    ensures { result ≡ kind_in fields.now number }
{
    for field in fields {
        if field.number == number {
            return Some(field.kind);
        }
    }
    None
}
