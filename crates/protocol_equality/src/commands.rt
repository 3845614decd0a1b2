// Commands but those that call other invocations: each function is the test, and header equality is what it tells.
ghost use Rattle.std.specs.Prelude.{◌≡◌};
ghost use Rattle.protocol_equality.specs.Commands.{erased_input_command, input_command_coarser, same_output_command, erased_output_command, output_command_coarser, same_sleep_command, erased_sleep_command, sleep_command_coarser, same_get_lazy_state_command, erased_get_lazy_state_command, get_lazy_state_command_coarser, same_get_lazy_state_keys_command, erased_get_lazy_state_keys_command, get_lazy_state_keys_command_coarser, same_get_eager_state_command, erased_get_eager_state_command, get_eager_state_command_coarser, same_get_eager_state_keys_command, erased_get_eager_state_keys_command, get_eager_state_keys_command_coarser, same_set_state_command, erased_set_state_command, set_state_command_coarser, same_clear_state_command, erased_clear_state_command, clear_state_command_coarser, same_clear_all_state_command, erased_clear_all_state_command, clear_all_state_command_coarser, same_get_promise_command, erased_get_promise_command, get_promise_command_coarser, same_peek_promise_command, erased_peek_promise_command, peek_promise_command_coarser, same_complete_promise_command, erased_complete_promise_command, complete_promise_command_coarser, same_run_command, erased_run_command, run_command_coarser, same_send_signal_command, erased_send_signal_command, send_signal_command_coarser, same_attach_invocation_command, erased_attach_invocation_command, attach_invocation_command_coarser, same_get_invocation_output_command, erased_get_invocation_output_command, get_invocation_output_command_coarser, same_complete_awakeable_command, erased_complete_awakeable_command, complete_awakeable_command_coarser};

use crate::{CommandMessageHeaderEq, Same, SameBesidesPayload};
use protocol_calls::{
    AttachInvocationCommandMessage, CompleteAwakeableCommandMessage,
    GetInvocationOutputCommandMessage, SendSignalCommandMessage,
};
use protocol_commands::{
    ClearAllStateCommandMessage, ClearStateCommandMessage, CompletePromiseCommandMessage,
    GetEagerStateCommandMessage, GetEagerStateKeysCommandMessage, GetLazyStateCommandMessage,
    GetLazyStateKeysCommandMessage, GetPromiseCommandMessage, PeekPromiseCommandMessage,
    RunCommandMessage, SetStateCommandMessage,
};
use protocol_records::{InputCommandMessage, OutputCommandMessage, SleepCommandMessage};

impl CommandMessageHeaderEq for InputCommandMessage {
    ghost erased = { erased_input_command };

    fn header_eq(&self, other: &InputCommandMessage, ignore_payload_equality: bool) -> bool {
        true
    }

    ghost coarser = { input_command_coarser };
}

fn is_same_output(one: &OutputCommandMessage, two: &OutputCommandMessage, ignoring: bool) -> bool
    ensures { result ≡ same_output_command ignoring one.now two.now }
{
    one.name.is_same(&two.name) && one.result.is_same_besides_payload(&two.result, ignoring)
}

impl CommandMessageHeaderEq for OutputCommandMessage {
    ghost erased = { erased_output_command };

    fn header_eq(&self, other: &OutputCommandMessage, ignore_payload_equality: bool) -> bool {
        is_same_output(self, other, ignore_payload_equality)
    }

    ghost coarser = { output_command_coarser };
}

fn is_same_sleep(one: &SleepCommandMessage, two: &SleepCommandMessage, ignoring: bool) -> bool
    ensures { result ≡ same_sleep_command ignoring one.now two.now }
{
    one.result_completion_id.is_same(&two.result_completion_id) && one.name.is_same(&two.name)
}

impl CommandMessageHeaderEq for SleepCommandMessage {
    ghost erased = { erased_sleep_command };

    fn header_eq(&self, other: &SleepCommandMessage, ignore_payload_equality: bool) -> bool {
        is_same_sleep(self, other, ignore_payload_equality)
    }

    ghost coarser = { sleep_command_coarser };
}

fn is_same_get_lazy_state(
    one: &GetLazyStateCommandMessage,
    two: &GetLazyStateCommandMessage,
    ignoring: bool,
) -> bool
    ensures { result ≡ same_get_lazy_state_command ignoring one.now two.now }
{
    one.key.is_same(&two.key)
        && one.result_completion_id.is_same(&two.result_completion_id)
        && one.name.is_same(&two.name)
}

impl CommandMessageHeaderEq for GetLazyStateCommandMessage {
    ghost erased = { erased_get_lazy_state_command };

    fn header_eq(&self, other: &GetLazyStateCommandMessage, ignore_payload_equality: bool) -> bool {
        is_same_get_lazy_state(self, other, ignore_payload_equality)
    }

    ghost coarser = { get_lazy_state_command_coarser };
}

fn is_same_get_lazy_state_keys(
    one: &GetLazyStateKeysCommandMessage,
    two: &GetLazyStateKeysCommandMessage,
    ignoring: bool,
) -> bool
    ensures { result ≡ same_get_lazy_state_keys_command ignoring one.now two.now }
{
    one.result_completion_id.is_same(&two.result_completion_id) && one.name.is_same(&two.name)
}

impl CommandMessageHeaderEq for GetLazyStateKeysCommandMessage {
    ghost erased = { erased_get_lazy_state_keys_command };

    fn header_eq(
        &self,
        other: &GetLazyStateKeysCommandMessage,
        ignore_payload_equality: bool,
    ) -> bool {
        is_same_get_lazy_state_keys(self, other, ignore_payload_equality)
    }

    ghost coarser = { get_lazy_state_keys_command_coarser };
}

fn is_same_get_eager_state(
    one: &GetEagerStateCommandMessage,
    two: &GetEagerStateCommandMessage,
    ignoring: bool,
) -> bool
    ensures { result ≡ same_get_eager_state_command ignoring one.now two.now }
{
    one.key.is_same(&two.key)
        && one.name.is_same(&two.name)
        && one.result.is_same_besides_payload(&two.result, ignoring)
}

impl CommandMessageHeaderEq for GetEagerStateCommandMessage {
    ghost erased = { erased_get_eager_state_command };

    fn header_eq(
        &self,
        other: &GetEagerStateCommandMessage,
        ignore_payload_equality: bool,
    ) -> bool {
        is_same_get_eager_state(self, other, ignore_payload_equality)
    }

    ghost coarser = { get_eager_state_command_coarser };
}

fn is_same_get_eager_state_keys(
    one: &GetEagerStateKeysCommandMessage,
    two: &GetEagerStateKeysCommandMessage,
    ignoring: bool,
) -> bool
    ensures { result ≡ same_get_eager_state_keys_command ignoring one.now two.now }
{
    one.name.is_same(&two.name) && one.value.is_same(&two.value)
}

impl CommandMessageHeaderEq for GetEagerStateKeysCommandMessage {
    ghost erased = { erased_get_eager_state_keys_command };

    fn header_eq(
        &self,
        other: &GetEagerStateKeysCommandMessage,
        ignore_payload_equality: bool,
    ) -> bool {
        is_same_get_eager_state_keys(self, other, ignore_payload_equality)
    }

    ghost coarser = { get_eager_state_keys_command_coarser };
}

fn is_same_set_state(
    one: &SetStateCommandMessage,
    two: &SetStateCommandMessage,
    ignoring: bool,
) -> bool
    ensures { result ≡ same_set_state_command ignoring one.now two.now }
{
    one.key.is_same(&two.key)
        && one.value.is_same_besides_payload(&two.value, ignoring)
        && one.name.is_same(&two.name)
}

impl CommandMessageHeaderEq for SetStateCommandMessage {
    ghost erased = { erased_set_state_command };

    fn header_eq(&self, other: &SetStateCommandMessage, ignore_payload_equality: bool) -> bool {
        is_same_set_state(self, other, ignore_payload_equality)
    }

    ghost coarser = { set_state_command_coarser };
}

fn is_same_clear_state(
    one: &ClearStateCommandMessage,
    two: &ClearStateCommandMessage,
    ignoring: bool,
) -> bool
    ensures { result ≡ same_clear_state_command ignoring one.now two.now }
{
    one.key.is_same(&two.key) && one.name.is_same(&two.name)
}

impl CommandMessageHeaderEq for ClearStateCommandMessage {
    ghost erased = { erased_clear_state_command };

    fn header_eq(&self, other: &ClearStateCommandMessage, ignore_payload_equality: bool) -> bool {
        is_same_clear_state(self, other, ignore_payload_equality)
    }

    ghost coarser = { clear_state_command_coarser };
}

fn is_same_clear_all_state(
    one: &ClearAllStateCommandMessage,
    two: &ClearAllStateCommandMessage,
    ignoring: bool,
) -> bool
    ensures { result ≡ same_clear_all_state_command ignoring one.now two.now }
{
    one.name.is_same(&two.name)
}

impl CommandMessageHeaderEq for ClearAllStateCommandMessage {
    ghost erased = { erased_clear_all_state_command };

    fn header_eq(
        &self,
        other: &ClearAllStateCommandMessage,
        ignore_payload_equality: bool,
    ) -> bool {
        is_same_clear_all_state(self, other, ignore_payload_equality)
    }

    ghost coarser = { clear_all_state_command_coarser };
}

fn is_same_get_promise(
    one: &GetPromiseCommandMessage,
    two: &GetPromiseCommandMessage,
    ignoring: bool,
) -> bool
    ensures { result ≡ same_get_promise_command ignoring one.now two.now }
{
    one.key.is_same(&two.key)
        && one.result_completion_id.is_same(&two.result_completion_id)
        && one.name.is_same(&two.name)
}

impl CommandMessageHeaderEq for GetPromiseCommandMessage {
    ghost erased = { erased_get_promise_command };

    fn header_eq(&self, other: &GetPromiseCommandMessage, ignore_payload_equality: bool) -> bool {
        is_same_get_promise(self, other, ignore_payload_equality)
    }

    ghost coarser = { get_promise_command_coarser };
}

fn is_same_peek_promise(
    one: &PeekPromiseCommandMessage,
    two: &PeekPromiseCommandMessage,
    ignoring: bool,
) -> bool
    ensures { result ≡ same_peek_promise_command ignoring one.now two.now }
{
    one.key.is_same(&two.key)
        && one.result_completion_id.is_same(&two.result_completion_id)
        && one.name.is_same(&two.name)
}

impl CommandMessageHeaderEq for PeekPromiseCommandMessage {
    ghost erased = { erased_peek_promise_command };

    fn header_eq(&self, other: &PeekPromiseCommandMessage, ignore_payload_equality: bool) -> bool {
        is_same_peek_promise(self, other, ignore_payload_equality)
    }

    ghost coarser = { peek_promise_command_coarser };
}

fn is_same_complete_promise(
    one: &CompletePromiseCommandMessage,
    two: &CompletePromiseCommandMessage,
    ignoring: bool,
) -> bool
    ensures { result ≡ same_complete_promise_command ignoring one.now two.now }
{
    one.key.is_same(&two.key)
        && one
            .completion
            .is_same_besides_payload(&two.completion, ignoring)
        && one.result_completion_id.is_same(&two.result_completion_id)
        && one.name.is_same(&two.name)
}

impl CommandMessageHeaderEq for CompletePromiseCommandMessage {
    ghost erased = { erased_complete_promise_command };

    fn header_eq(
        &self,
        other: &CompletePromiseCommandMessage,
        ignore_payload_equality: bool,
    ) -> bool {
        is_same_complete_promise(self, other, ignore_payload_equality)
    }

    ghost coarser = { complete_promise_command_coarser };
}

fn is_same_run(one: &RunCommandMessage, two: &RunCommandMessage, ignoring: bool) -> bool
    ensures { result ≡ same_run_command ignoring one.now two.now }
{
    one.result_completion_id.is_same(&two.result_completion_id) && one.name.is_same(&two.name)
}

impl CommandMessageHeaderEq for RunCommandMessage {
    ghost erased = { erased_run_command };

    fn header_eq(&self, other: &RunCommandMessage, ignore_payload_equality: bool) -> bool {
        is_same_run(self, other, ignore_payload_equality)
    }

    ghost coarser = { run_command_coarser };
}

fn is_same_send_signal(
    one: &SendSignalCommandMessage,
    two: &SendSignalCommandMessage,
    ignoring: bool,
) -> bool
    ensures { result ≡ same_send_signal_command ignoring one.now two.now }
{
    one.target_invocation_id.is_same(&two.target_invocation_id)
        && one.signal_id.is_same(&two.signal_id)
        && one.result.is_same(&two.result)
        && one.entry_name.is_same(&two.entry_name)
}

impl CommandMessageHeaderEq for SendSignalCommandMessage {
    ghost erased = { erased_send_signal_command };

    fn header_eq(&self, other: &SendSignalCommandMessage, ignore_payload_equality: bool) -> bool {
        is_same_send_signal(self, other, ignore_payload_equality)
    }

    ghost coarser = { send_signal_command_coarser };
}

fn is_same_attach_invocation(
    one: &AttachInvocationCommandMessage,
    two: &AttachInvocationCommandMessage,
    ignoring: bool,
) -> bool
    ensures { result ≡ same_attach_invocation_command ignoring one.now two.now }
{
    one.target.is_same(&two.target)
        && one.result_completion_id.is_same(&two.result_completion_id)
        && one.name.is_same(&two.name)
}

impl CommandMessageHeaderEq for AttachInvocationCommandMessage {
    ghost erased = { erased_attach_invocation_command };

    fn header_eq(
        &self,
        other: &AttachInvocationCommandMessage,
        ignore_payload_equality: bool,
    ) -> bool {
        is_same_attach_invocation(self, other, ignore_payload_equality)
    }

    ghost coarser = { attach_invocation_command_coarser };
}

fn is_same_get_invocation_output(
    one: &GetInvocationOutputCommandMessage,
    two: &GetInvocationOutputCommandMessage,
    ignoring: bool,
) -> bool
    ensures { result ≡ same_get_invocation_output_command ignoring one.now two.now }
{
    one.target.is_same(&two.target)
        && one.result_completion_id.is_same(&two.result_completion_id)
        && one.name.is_same(&two.name)
}

impl CommandMessageHeaderEq for GetInvocationOutputCommandMessage {
    ghost erased = { erased_get_invocation_output_command };

    fn header_eq(
        &self,
        other: &GetInvocationOutputCommandMessage,
        ignore_payload_equality: bool,
    ) -> bool {
        is_same_get_invocation_output(self, other, ignore_payload_equality)
    }

    ghost coarser = { get_invocation_output_command_coarser };
}

fn is_same_complete_awakeable(
    one: &CompleteAwakeableCommandMessage,
    two: &CompleteAwakeableCommandMessage,
    ignoring: bool,
) -> bool
    ensures { result ≡ same_complete_awakeable_command ignoring one.now two.now }
{
    one.awakeable_id.is_same(&two.awakeable_id)
        && one.result.is_same_besides_payload(&two.result, ignoring)
        && one.name.is_same(&two.name)
}

impl CommandMessageHeaderEq for CompleteAwakeableCommandMessage {
    ghost erased = { erased_complete_awakeable_command };

    fn header_eq(
        &self,
        other: &CompleteAwakeableCommandMessage,
        ignore_payload_equality: bool,
    ) -> bool {
        is_same_complete_awakeable(self, other, ignore_payload_equality)
    }

    ghost coarser = { complete_awakeable_command_coarser };
}
