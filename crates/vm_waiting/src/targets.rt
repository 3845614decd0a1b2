// Which invocation a call is about, as its command carries it.
ghost use Rattle.std.specs.Prelude.{◌≡◌};
ghost use Rattle.protocol_laws.specs.Records.{target_record};

use journal_model::AttachInvocationTarget;
use protocol_calls::{IdempotentRequestTarget, InvocationTarget, WorkflowTarget};

/// What a command holds of the invocation that it is about.
pub(crate) fn to_invocation_target(target: AttachInvocationTarget) -> InvocationTarget
    ensures { result ≡ target_record target }
{
    match target {
        AttachInvocationTarget::InvocationId(id) => InvocationTarget::InvocationId(id),
        AttachInvocationTarget::WorkflowId { name, key, scope } => {
            InvocationTarget::WorkflowTarget(WorkflowTarget {
                workflow_name: name,
                workflow_key: key,
                scope,
            })
        }
        AttachInvocationTarget::IdempotencyId {
            service_name,
            handler_name,
            idempotency_key,
            service_key,
            scope,
        } => InvocationTarget::IdempotentRequestTarget(IdempotentRequestTarget {
            service_name,
            service_key,
            handler_name,
            idempotency_key,
            scope,
        }),
    }
}
