// How targets, and what commands choose among, are printed.
ghost use Rattle.protocol_calls.specs.Texts.{workflow_target_text, idempotent_request_target_text, awakeable_result_text, signal_id_text, signal_result_text, invocation_target_text};

use crate::{
    CompleteAwakeableCommandResult, IdempotentRequestTarget, InvocationTarget,
    SendSignalCommandResult, SendSignalCommandSignalId, WorkflowTarget,
};
use protocol_types::{Shown, show_labelled};
use std::fmt;

impl Shown for WorkflowTarget {
    ghost text = { workflow_target_text };

    fn show<W: fmt::Write>(&self, f: &mut fmt::Formatter<W>) -> fmt::Result {
        show_labelled("workflow ", &self.workflow_name, f)?;
        show_labelled(", key ", &self.workflow_key, f)?;
        show_labelled(", scope ", &self.scope, f)
    }
}

impl Shown for IdempotentRequestTarget {
    ghost text = { idempotent_request_target_text };

    fn show<W: fmt::Write>(&self, f: &mut fmt::Formatter<W>) -> fmt::Result {
        show_labelled("service ", &self.service_name, f)?;
        show_labelled(", key ", &self.service_key, f)?;
        show_labelled(", handler ", &self.handler_name, f)?;
        show_labelled(", idempotency key ", &self.idempotency_key, f)?;
        show_labelled(", scope ", &self.scope, f)
    }
}

impl Shown for CompleteAwakeableCommandResult {
    ghost text = { awakeable_result_text };

    fn show<W: fmt::Write>(&self, f: &mut fmt::Formatter<W>) -> fmt::Result {
        match self {
            CompleteAwakeableCommandResult::Value(one) => one.show(f),
            CompleteAwakeableCommandResult::Failure(one) => one.show(f),
        }
    }
}

impl Shown for SendSignalCommandSignalId {
    ghost text = { signal_id_text };

    fn show<W: fmt::Write>(&self, f: &mut fmt::Formatter<W>) -> fmt::Result {
        match self {
            SendSignalCommandSignalId::Idx(one) => one.show(f),
            SendSignalCommandSignalId::Name(one) => one.show(f),
        }
    }
}

impl Shown for SendSignalCommandResult {
    ghost text = { signal_result_text };

    fn show<W: fmt::Write>(&self, f: &mut fmt::Formatter<W>) -> fmt::Result {
        match self {
            SendSignalCommandResult::Void(one) => one.show(f),
            SendSignalCommandResult::Value(one) => one.show(f),
            SendSignalCommandResult::Failure(one) => one.show(f),
        }
    }
}

impl Shown for InvocationTarget {
    ghost text = { invocation_target_text };

    fn show<W: fmt::Write>(&self, f: &mut fmt::Formatter<W>) -> fmt::Result {
        match self {
            InvocationTarget::InvocationId(id) => show_labelled("invocation ", id, f),
            InvocationTarget::WorkflowTarget(one) => one.show(f),
            InvocationTarget::IdempotentRequestTarget(one) => one.show(f),
        }
    }
}
