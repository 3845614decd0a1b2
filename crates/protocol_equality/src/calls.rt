// Commands that call other invocations.
ghost use Rattle.std.specs.Prelude.{◌≡◌};
ghost use Rattle.protocol_equality.specs.Calls.{erased_call_command, call_command_coarser, same_call_command, erased_one_way_call_command, one_way_call_command_coarser, same_one_way_call_command};

use crate::{CommandMessageHeaderEq, Same, SameBesidesPayload};
use protocol_calls::{CallCommandMessage, OneWayCallCommandMessage};

fn is_same_call(one: &CallCommandMessage, two: &CallCommandMessage, ignoring: bool) -> bool
    ensures { result ≡ same_call_command ignoring one.now two.now }
{
    one.service_name.is_same(&two.service_name)
        && one.handler_name.is_same(&two.handler_name)
        && one
            .parameter
            .is_same_besides_payload(&two.parameter, ignoring)
        && one.headers.is_same(&two.headers)
        && one.key.is_same(&two.key)
        && one.idempotency_key.is_same(&two.idempotency_key)
        && one.scope.is_same(&two.scope)
        && one.limit_key.is_same(&two.limit_key)
        && one
            .invocation_id_notification_idx
            .is_same(&two.invocation_id_notification_idx)
        && one.result_completion_id.is_same(&two.result_completion_id)
        && one.name.is_same(&two.name)
}

impl CommandMessageHeaderEq for CallCommandMessage {
    ghost erased = { erased_call_command };

    fn header_eq(&self, other: &CallCommandMessage, ignore_payload_equality: bool) -> bool {
        is_same_call(self, other, ignore_payload_equality)
    }

    ghost coarser = { call_command_coarser };
}

fn is_same_one_way_call(
    one: &OneWayCallCommandMessage,
    two: &OneWayCallCommandMessage,
    ignoring: bool,
) -> bool
    ensures { result ≡ same_one_way_call_command ignoring one.now two.now }
{
    one.service_name.is_same(&two.service_name)
        && one.handler_name.is_same(&two.handler_name)
        && one
            .parameter
            .is_same_besides_payload(&two.parameter, ignoring)
        && one.headers.is_same(&two.headers)
        && one.key.is_same(&two.key)
        && one.idempotency_key.is_same(&two.idempotency_key)
        && one.scope.is_same(&two.scope)
        && one.limit_key.is_same(&two.limit_key)
        && one
            .invocation_id_notification_idx
            .is_same(&two.invocation_id_notification_idx)
        && one.name.is_same(&two.name)
}

impl CommandMessageHeaderEq for OneWayCallCommandMessage {
    ghost erased = { erased_one_way_call_command };

    fn header_eq(&self, other: &OneWayCallCommandMessage, ignore_payload_equality: bool) -> bool {
        is_same_one_way_call(self, other, ignore_payload_equality)
    }

    ghost coarser = { one_way_call_command_coarser };
}
