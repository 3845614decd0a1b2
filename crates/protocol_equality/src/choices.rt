// What a command chooses among, where everything is compared.
ghost use Rattle.protocol_equality.specs.EqualityTests.{deciding};
ghost use Rattle.protocol_equality.specs.Choices.{same_signal_id, signal_id_tells, same_signal_result, signal_result_tells, same_invocation_target, invocation_target_tells};

use crate::Same;
use protocol_calls::{InvocationTarget, SendSignalCommandResult, SendSignalCommandSignalId};

impl Same for SendSignalCommandSignalId {
    ghost same = { same_signal_id };

    fn is_same(&self, other: &SendSignalCommandSignalId) -> bool {
        match (self, other) {
            (SendSignalCommandSignalId::Idx(one), SendSignalCommandSignalId::Idx(two)) =>
                one.is_same(two),
            (SendSignalCommandSignalId::Name(one), SendSignalCommandSignalId::Name(two)) =>
                one.is_same(two),
            _ => false,
        }
    }

    ghost decides = { deciding signal_id_tells };
}

impl Same for SendSignalCommandResult {
    ghost same = { same_signal_result };

    fn is_same(&self, other: &SendSignalCommandResult) -> bool {
        match (self, other) {
            (SendSignalCommandResult::Void(one), SendSignalCommandResult::Void(two)) => one.is_same(
                two,
            ),
            (SendSignalCommandResult::Value(one), SendSignalCommandResult::Value(two)) =>
                one.is_same(two),
            (SendSignalCommandResult::Failure(one), SendSignalCommandResult::Failure(two)) =>
                one.is_same(two),
            _ => false,
        }
    }

    ghost decides = { deciding signal_result_tells };
}

impl Same for InvocationTarget {
    ghost same = { same_invocation_target };

    fn is_same(&self, other: &InvocationTarget) -> bool {
        match (self, other) {
            (InvocationTarget::InvocationId(one), InvocationTarget::InvocationId(two)) =>
                one.is_same(two),
            (InvocationTarget::WorkflowTarget(one), InvocationTarget::WorkflowTarget(two)) =>
                one.is_same(two),
            (
                InvocationTarget::IdempotentRequestTarget(one),
                InvocationTarget::IdempotentRequestTarget(two),
            ) => one.is_same(two),
            _ => false,
        }
    }

    ghost decides = { deciding invocation_target_tells };
}
