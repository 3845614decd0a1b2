// The commands that calls make.
ghost use Rattle.std.specs.Prelude.{Some};
ghost use Rattle.protocol_laws.specs.Requests.{request_of_output, request_of_get_lazy_state, request_of_get_eager_state, request_of_get_lazy_state_keys, request_of_get_eager_state_keys, request_of_set_state, request_of_clear_state, request_of_clear_all_state, request_of_get_promise, request_of_peek_promise, request_of_complete_promise, request_of_sleep, request_of_call, request_of_one_way_call, request_of_send_signal, request_of_run, request_of_attach_invocation, request_of_get_invocation_output, request_of_complete_awakeable};
ghost use Rattle.vm_commands.specs.Meanings.{output_means, get_lazy_state_means, get_eager_state_means, get_lazy_state_keys_means, get_eager_state_keys_means, set_state_means, clear_state_means, clear_all_state_means, get_promise_means, peek_promise_means, complete_promise_means, sleep_means, call_means, one_way_call_means, send_signal_means, run_means, attach_invocation_means, get_invocation_output_means, complete_awakeable_means};

use crate::Command;
use protocol_calls::{
    AttachInvocationCommandMessage, CallCommandMessage, CompleteAwakeableCommandMessage,
    GetInvocationOutputCommandMessage, OneWayCallCommandMessage, SendSignalCommandMessage,
};
use protocol_commands::{
    ClearAllStateCommandMessage, ClearStateCommandMessage, CompletePromiseCommandMessage,
    GetEagerStateCommandMessage, GetEagerStateKeysCommandMessage, GetLazyStateCommandMessage,
    GetLazyStateKeysCommandMessage, GetPromiseCommandMessage, PeekPromiseCommandMessage,
    RunCommandMessage, SetStateCommandMessage,
};
use protocol_records::{OutputCommandMessage, SleepCommandMessage};

impl Command for OutputCommandMessage {
    ghost request_of = { request_of_output };

    ghost means = { output_means };
}

impl Command for GetLazyStateCommandMessage {
    ghost request_of = { λ one. Some (request_of_get_lazy_state one) };

    ghost means = { get_lazy_state_means };
}

impl Command for GetEagerStateCommandMessage {
    ghost request_of = { request_of_get_eager_state };

    ghost means = { get_eager_state_means };
}

impl Command for GetLazyStateKeysCommandMessage {
    ghost request_of = { λ one. Some (request_of_get_lazy_state_keys one) };

    ghost means = { get_lazy_state_keys_means };
}

impl Command for GetEagerStateKeysCommandMessage {
    ghost request_of = { request_of_get_eager_state_keys };

    ghost means = { get_eager_state_keys_means };
}

impl Command for SetStateCommandMessage {
    ghost request_of = { request_of_set_state };

    ghost means = { set_state_means };
}

impl Command for ClearStateCommandMessage {
    ghost request_of = { λ one. Some (request_of_clear_state one) };

    ghost means = { clear_state_means };
}

impl Command for ClearAllStateCommandMessage {
    ghost request_of = { λ one. Some (request_of_clear_all_state one) };

    ghost means = { clear_all_state_means };
}

impl Command for GetPromiseCommandMessage {
    ghost request_of = { λ one. Some (request_of_get_promise one) };

    ghost means = { get_promise_means };
}

impl Command for PeekPromiseCommandMessage {
    ghost request_of = { λ one. Some (request_of_peek_promise one) };

    ghost means = { peek_promise_means };
}

impl Command for CompletePromiseCommandMessage {
    ghost request_of = { request_of_complete_promise };

    ghost means = { complete_promise_means };
}

impl Command for SleepCommandMessage {
    ghost request_of = { λ one. Some (request_of_sleep one) };

    ghost means = { sleep_means };
}

impl Command for CallCommandMessage {
    ghost request_of = { λ one. Some (request_of_call one) };

    ghost means = { call_means };
}

impl Command for OneWayCallCommandMessage {
    ghost request_of = { λ one. Some (request_of_one_way_call one) };

    ghost means = { one_way_call_means };
}

impl Command for SendSignalCommandMessage {
    ghost request_of = { request_of_send_signal };

    ghost means = { send_signal_means };
}

impl Command for RunCommandMessage {
    ghost request_of = { λ one. Some (request_of_run one) };

    ghost means = { run_means };
}

impl Command for AttachInvocationCommandMessage {
    ghost request_of = { request_of_attach_invocation };

    ghost means = { attach_invocation_means };
}

impl Command for GetInvocationOutputCommandMessage {
    ghost request_of = { request_of_get_invocation_output };

    ghost means = { get_invocation_output_means };
}

impl Command for CompleteAwakeableCommandMessage {
    ghost request_of = { request_of_complete_awakeable };

    ghost means = { complete_awakeable_means };
}
