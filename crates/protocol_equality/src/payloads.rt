// What holds a payload, which may be ignored.
ghost use Rattle.protocol_equality.specs.Payloads.{same_payload, same_content, same_output_result, same_state_result, same_completion, same_awakeable_result};
ghost use Rattle.std.specs.Option.{option_eq};

use crate::{Same, SameBesidesPayload};
use bytes::Bytes;
use protocol_calls::CompleteAwakeableCommandResult;
use protocol_commands::{CompletePromiseCommandCompletion, GetEagerStateCommandResult};
use protocol_records::{OutputCommandResult, Value};

impl SameBesidesPayload for Bytes {
    ghost same_besides = { same_payload };

    fn is_same_besides_payload(&self, other: &Bytes, ignoring: bool) -> bool {
        if ignoring { true } else { self.is_same(other) }
    }
}

impl SameBesidesPayload for Value {
    ghost same_besides = { same_content };

    fn is_same_besides_payload(&self, other: &Value, ignoring: bool) -> bool {
        self.content
            .is_same_besides_payload(&other.content, ignoring)
    }
}

impl<T: SameBesidesPayload> SameBesidesPayload for Option<T> {
    ghost same_besides = { λ ignoring. option_eq (T.same_besides ignoring) };

    fn is_same_besides_payload(&self, other: &Option<T>, ignoring: bool) -> bool {
        match (self, other) {
            (None, None) => true,
            (Some(one), Some(two)) => one.is_same_besides_payload(two, ignoring),
            _ => false,
        }
    }
}

impl SameBesidesPayload for OutputCommandResult {
    ghost same_besides = { same_output_result };

    fn is_same_besides_payload(&self, other: &OutputCommandResult, ignoring: bool) -> bool {
        match (self, other) {
            (OutputCommandResult::Value(one), OutputCommandResult::Value(two)) =>
                one.is_same_besides_payload(two, ignoring),
            (OutputCommandResult::Failure(one), OutputCommandResult::Failure(two)) => one.is_same(
                two,
            ),
            _ => false,
        }
    }
}

impl SameBesidesPayload for GetEagerStateCommandResult {
    ghost same_besides = { same_state_result };

    fn is_same_besides_payload(&self, other: &GetEagerStateCommandResult, ignoring: bool) -> bool {
        match (self, other) {
            (GetEagerStateCommandResult::Void(one), GetEagerStateCommandResult::Void(two)) =>
                one.is_same(two),
            (GetEagerStateCommandResult::Value(one), GetEagerStateCommandResult::Value(two)) =>
                one.is_same_besides_payload(two, ignoring),
            _ => false,
        }
    }
}

impl SameBesidesPayload for CompletePromiseCommandCompletion {
    ghost same_besides = { same_completion };

    fn is_same_besides_payload(
        &self,
        other: &CompletePromiseCommandCompletion,
        ignoring: bool,
    ) -> bool {
        match (self, other) {
            (
                CompletePromiseCommandCompletion::CompletionValue(one),
                CompletePromiseCommandCompletion::CompletionValue(two),
            ) => one.is_same_besides_payload(two, ignoring),
            (
                CompletePromiseCommandCompletion::CompletionFailure(one),
                CompletePromiseCommandCompletion::CompletionFailure(two),
            ) => one.is_same(two),
            _ => false,
        }
    }
}

impl SameBesidesPayload for CompleteAwakeableCommandResult {
    ghost same_besides = { same_awakeable_result };

    fn is_same_besides_payload(
        &self,
        other: &CompleteAwakeableCommandResult,
        ignoring: bool,
    ) -> bool {
        match (self, other) {
            (
                CompleteAwakeableCommandResult::Value(one),
                CompleteAwakeableCommandResult::Value(two),
            ) => one.is_same_besides_payload(two, ignoring),
            (
                CompleteAwakeableCommandResult::Failure(one),
                CompleteAwakeableCommandResult::Failure(two),
            ) => one.is_same(two),
            _ => false,
        }
    }
}
