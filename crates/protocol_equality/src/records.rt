// Records that others hold.
ghost use Rattle.protocol_equality.specs.EqualityTests.{deciding};
ghost use Rattle.protocol_equality.specs.Records.{same_header, header_tells, same_failure_metadata, failure_metadata_tells, same_failure, failure_tells, same_value, value_tells, same_void, void_tells, same_state_keys, state_keys_tells, same_workflow_target, workflow_target_tells, same_idempotent_request_target, idempotent_request_target_tells};

use crate::Same;
use protocol_calls::{IdempotentRequestTarget, WorkflowTarget};
use protocol_records::{Failure, FailureMetadata, Header, StateKeys, Value, Void};

impl Same for Header {
    ghost same = { same_header };

    fn is_same(&self, other: &Header) -> bool {
        self.key.is_same(&other.key) && self.value.is_same(&other.value)
    }

    ghost decides = { deciding header_tells };
}

impl Same for FailureMetadata {
    ghost same = { same_failure_metadata };

    fn is_same(&self, other: &FailureMetadata) -> bool {
        self.key.is_same(&other.key) && self.value.is_same(&other.value)
    }

    ghost decides = { deciding failure_metadata_tells };
}

impl Same for Failure {
    ghost same = { same_failure };

    fn is_same(&self, other: &Failure) -> bool {
        self.code.is_same(&other.code)
            && self.message.is_same(&other.message)
            && self.metadata.is_same(&other.metadata)
    }

    ghost decides = { deciding failure_tells };
}

impl Same for Value {
    ghost same = { same_value };

    fn is_same(&self, other: &Value) -> bool {
        self.content.is_same(&other.content)
    }

    ghost decides = { deciding value_tells };
}

impl Same for Void {
    ghost same = { same_void };

    fn is_same(&self, other: &Void) -> bool {
        true
    }

    ghost decides = { deciding void_tells };
}

impl Same for StateKeys {
    ghost same = { same_state_keys };

    fn is_same(&self, other: &StateKeys) -> bool {
        self.keys.is_same(&other.keys)
    }

    ghost decides = { deciding state_keys_tells };
}

impl Same for WorkflowTarget {
    ghost same = { same_workflow_target };

    fn is_same(&self, other: &WorkflowTarget) -> bool {
        self.workflow_name.is_same(&other.workflow_name)
            && self.workflow_key.is_same(&other.workflow_key)
            && self.scope.is_same(&other.scope)
    }

    ghost decides = { deciding workflow_target_tells };
}

impl Same for IdempotentRequestTarget {
    ghost same = { same_idempotent_request_target };

    fn is_same(&self, other: &IdempotentRequestTarget) -> bool {
        self.service_name.is_same(&other.service_name)
            && self.service_key.is_same(&other.service_key)
            && self.handler_name.is_same(&other.handler_name)
            && self.idempotency_key.is_same(&other.idempotency_key)
            && self.scope.is_same(&other.scope)
    }

    ghost decides = { deciding idempotent_request_target_tells };
}
