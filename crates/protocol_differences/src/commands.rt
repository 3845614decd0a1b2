// What is printed of each command.
ghost use Rattle.std.specs.Prelude.{false, refl};
ghost use Rattle.protocol_equality.specs.Commands.{output_command_tells, sleep_command_tells, get_lazy_state_command_tells, get_lazy_state_keys_command_tells, get_eager_state_command_tells, get_eager_state_keys_command_tells, set_state_command_tells, clear_state_command_tells, clear_all_state_command_tells, get_promise_command_tells, peek_promise_command_tells, complete_promise_command_tells, run_command_tells, send_signal_command_tells, attach_invocation_command_tells, get_invocation_output_command_tells, complete_awakeable_command_tells};
ghost use Rattle.protocol_equality.specs.Calls.{call_command_tells, one_way_call_command_tells};
ghost use Rattle.protocol_differences.specs.Calls.{call_command_difference, call_command_lines, one_way_call_command_difference, one_way_call_command_lines};
ghost use Rattle.protocol_differences.specs.Control.{input_command_difference, output_command_difference, output_command_lines, sleep_command_difference, sleep_command_lines};
ghost use Rattle.protocol_differences.specs.Invocations.{send_signal_command_difference, send_signal_command_lines, attach_invocation_command_difference, attach_invocation_command_lines, get_invocation_output_command_difference, get_invocation_output_command_lines, complete_awakeable_command_difference, complete_awakeable_command_lines};
ghost use Rattle.protocol_differences.specs.Promises.{get_promise_command_difference, get_promise_command_lines, peek_promise_command_difference, peek_promise_command_lines, complete_promise_command_difference, complete_promise_command_lines, run_command_difference, run_command_lines};
ghost use Rattle.protocol_differences.specs.State.{get_lazy_state_command_difference, get_lazy_state_command_lines, get_lazy_state_keys_command_difference, get_lazy_state_keys_command_lines, get_eager_state_command_difference, get_eager_state_command_lines, get_eager_state_keys_command_difference, get_eager_state_keys_command_lines, set_state_command_difference, set_state_command_lines, clear_state_command_difference, clear_state_command_lines, clear_all_state_command_difference, clear_all_state_command_lines};
ghost use Rattle.protocol_differences.specs.Lines.{silent_told};

use crate::CommandMessageHeaderDiff;
use crate::lines::{write_field, write_id, write_payload};
use protocol_equality::{
    AttachInvocationCommandMessage, CallCommandMessage, ClearAllStateCommandMessage,
    ClearStateCommandMessage, CompleteAwakeableCommandMessage, CompletePromiseCommandMessage,
    GetEagerStateCommandMessage, GetEagerStateKeysCommandMessage,
    GetInvocationOutputCommandMessage, GetLazyStateCommandMessage, GetLazyStateKeysCommandMessage,
    GetPromiseCommandMessage, OneWayCallCommandMessage, PeekPromiseCommandMessage,
    RunCommandMessage, SendSignalCommandMessage, SetStateCommandMessage,
};
use protocol_records::{InputCommandMessage, OutputCommandMessage, SleepCommandMessage};
use std::fmt;

impl CommandMessageHeaderDiff for InputCommandMessage {
    ghost difference = { input_command_difference };

    fn write_diff<W: fmt::Write>(&self, expected: &Self, f: &mut fmt::Formatter<W>) -> fmt::Result {
        Ok(())
    }

    ghost silent = { λ x y. (λ h. refl, λ h. refl) };
}

impl CommandMessageHeaderDiff for OutputCommandMessage {
    ghost difference = { output_command_difference };

    fn write_diff<W: fmt::Write>(&self, expected: &Self, f: &mut fmt::Formatter<W>) -> fmt::Result {
        write_field(f, "name", &self.name, &expected.name)?;
        write_payload(f, "result", &self.result, &expected.result)
    }

    ghost silent = { silent_told (output_command_tells false) output_command_lines (λ x y. refl) };
}

impl CommandMessageHeaderDiff for SleepCommandMessage {
    ghost difference = { sleep_command_difference };

    fn write_diff<W: fmt::Write>(&self, expected: &Self, f: &mut fmt::Formatter<W>) -> fmt::Result {
        write_id(f, self.result_completion_id, expected.result_completion_id)?;
        write_field(f, "name", &self.name, &expected.name)
    }

    ghost silent = { silent_told (sleep_command_tells false) sleep_command_lines (λ x y. refl) };
}

impl CommandMessageHeaderDiff for GetLazyStateCommandMessage {
    ghost difference = { get_lazy_state_command_difference };

    fn write_diff<W: fmt::Write>(&self, expected: &Self, f: &mut fmt::Formatter<W>) -> fmt::Result {
        write_field(f, "key", &self.key, &expected.key)?;
        write_id(f, self.result_completion_id, expected.result_completion_id)?;
        write_field(f, "name", &self.name, &expected.name)
    }

    ghost silent = { silent_told (get_lazy_state_command_tells false) get_lazy_state_command_lines (λ x y. refl) };
}

impl CommandMessageHeaderDiff for GetLazyStateKeysCommandMessage {
    ghost difference = { get_lazy_state_keys_command_difference };

    fn write_diff<W: fmt::Write>(&self, expected: &Self, f: &mut fmt::Formatter<W>) -> fmt::Result {
        write_id(f, self.result_completion_id, expected.result_completion_id)?;
        write_field(f, "name", &self.name, &expected.name)
    }

    ghost silent = { silent_told (get_lazy_state_keys_command_tells false) get_lazy_state_keys_command_lines (λ x y. refl) };
}

impl CommandMessageHeaderDiff for GetEagerStateCommandMessage {
    ghost difference = { get_eager_state_command_difference };

    fn write_diff<W: fmt::Write>(&self, expected: &Self, f: &mut fmt::Formatter<W>) -> fmt::Result {
        write_field(f, "key", &self.key, &expected.key)?;
        write_field(f, "name", &self.name, &expected.name)?;
        write_payload(f, "result", &self.result, &expected.result)
    }

    ghost silent = { silent_told (get_eager_state_command_tells false) get_eager_state_command_lines (λ x y. refl) };
}

impl CommandMessageHeaderDiff for GetEagerStateKeysCommandMessage {
    ghost difference = { get_eager_state_keys_command_difference };

    fn write_diff<W: fmt::Write>(&self, expected: &Self, f: &mut fmt::Formatter<W>) -> fmt::Result {
        write_field(f, "name", &self.name, &expected.name)?;
        write_field(f, "value", &self.value, &expected.value)
    }

    ghost silent = { silent_told (get_eager_state_keys_command_tells false) get_eager_state_keys_command_lines (λ x y. refl) };
}

impl CommandMessageHeaderDiff for SetStateCommandMessage {
    ghost difference = { set_state_command_difference };

    fn write_diff<W: fmt::Write>(&self, expected: &Self, f: &mut fmt::Formatter<W>) -> fmt::Result {
        write_field(f, "key", &self.key, &expected.key)?;
        write_payload(f, "value", &self.value, &expected.value)?;
        write_field(f, "name", &self.name, &expected.name)
    }

    ghost silent = { silent_told (set_state_command_tells false) set_state_command_lines (λ x y. refl) };
}

impl CommandMessageHeaderDiff for ClearStateCommandMessage {
    ghost difference = { clear_state_command_difference };

    fn write_diff<W: fmt::Write>(&self, expected: &Self, f: &mut fmt::Formatter<W>) -> fmt::Result {
        write_field(f, "key", &self.key, &expected.key)?;
        write_field(f, "name", &self.name, &expected.name)
    }

    ghost silent = { silent_told (clear_state_command_tells false) clear_state_command_lines (λ x y. refl) };
}

impl CommandMessageHeaderDiff for ClearAllStateCommandMessage {
    ghost difference = { clear_all_state_command_difference };

    fn write_diff<W: fmt::Write>(&self, expected: &Self, f: &mut fmt::Formatter<W>) -> fmt::Result {
        write_field(f, "name", &self.name, &expected.name)
    }

    ghost silent = { silent_told (clear_all_state_command_tells false) clear_all_state_command_lines (λ x y. refl) };
}

impl CommandMessageHeaderDiff for GetPromiseCommandMessage {
    ghost difference = { get_promise_command_difference };

    fn write_diff<W: fmt::Write>(&self, expected: &Self, f: &mut fmt::Formatter<W>) -> fmt::Result {
        write_field(f, "key", &self.key, &expected.key)?;
        write_id(f, self.result_completion_id, expected.result_completion_id)?;
        write_field(f, "name", &self.name, &expected.name)
    }

    ghost silent = { silent_told (get_promise_command_tells false) get_promise_command_lines (λ x y. refl) };
}

impl CommandMessageHeaderDiff for PeekPromiseCommandMessage {
    ghost difference = { peek_promise_command_difference };

    fn write_diff<W: fmt::Write>(&self, expected: &Self, f: &mut fmt::Formatter<W>) -> fmt::Result {
        write_field(f, "key", &self.key, &expected.key)?;
        write_id(f, self.result_completion_id, expected.result_completion_id)?;
        write_field(f, "name", &self.name, &expected.name)
    }

    ghost silent = { silent_told (peek_promise_command_tells false) peek_promise_command_lines (λ x y. refl) };
}

impl CommandMessageHeaderDiff for CompletePromiseCommandMessage {
    ghost difference = { complete_promise_command_difference };

    fn write_diff<W: fmt::Write>(&self, expected: &Self, f: &mut fmt::Formatter<W>) -> fmt::Result {
        write_field(f, "key", &self.key, &expected.key)?;
        write_payload(f, "completion", &self.completion, &expected.completion)?;
        write_id(f, self.result_completion_id, expected.result_completion_id)?;
        write_field(f, "name", &self.name, &expected.name)
    }

    ghost silent = { silent_told (complete_promise_command_tells false) complete_promise_command_lines (λ x y. refl) };
}

impl CommandMessageHeaderDiff for RunCommandMessage {
    ghost difference = { run_command_difference };

    fn write_diff<W: fmt::Write>(&self, expected: &Self, f: &mut fmt::Formatter<W>) -> fmt::Result {
        write_id(f, self.result_completion_id, expected.result_completion_id)?;
        write_field(f, "name", &self.name, &expected.name)
    }

    ghost silent = { silent_told (run_command_tells false) run_command_lines (λ x y. refl) };
}

impl CommandMessageHeaderDiff for SendSignalCommandMessage {
    ghost difference = { send_signal_command_difference };

    fn write_diff<W: fmt::Write>(&self, expected: &Self, f: &mut fmt::Formatter<W>) -> fmt::Result {
        write_field(
            f,
            "target_invocation_id",
            &self.target_invocation_id,
            &expected.target_invocation_id,
        )?;
        write_field(f, "signal_id", &self.signal_id, &expected.signal_id)?;
        write_field(f, "result", &self.result, &expected.result)?;
        write_field(f, "entry_name", &self.entry_name, &expected.entry_name)
    }

    ghost silent = { silent_told (send_signal_command_tells false) send_signal_command_lines (λ x y. refl) };
}

impl CommandMessageHeaderDiff for AttachInvocationCommandMessage {
    ghost difference = { attach_invocation_command_difference };

    fn write_diff<W: fmt::Write>(&self, expected: &Self, f: &mut fmt::Formatter<W>) -> fmt::Result {
        write_field(f, "target", &self.target, &expected.target)?;
        write_id(f, self.result_completion_id, expected.result_completion_id)?;
        write_field(f, "name", &self.name, &expected.name)
    }

    ghost silent = { silent_told (attach_invocation_command_tells false) attach_invocation_command_lines (λ x y. refl) };
}

impl CommandMessageHeaderDiff for GetInvocationOutputCommandMessage {
    ghost difference = { get_invocation_output_command_difference };

    fn write_diff<W: fmt::Write>(&self, expected: &Self, f: &mut fmt::Formatter<W>) -> fmt::Result {
        write_field(f, "target", &self.target, &expected.target)?;
        write_id(f, self.result_completion_id, expected.result_completion_id)?;
        write_field(f, "name", &self.name, &expected.name)
    }

    ghost silent = { silent_told (get_invocation_output_command_tells false) get_invocation_output_command_lines (λ x y. refl) };
}

impl CommandMessageHeaderDiff for CompleteAwakeableCommandMessage {
    ghost difference = { complete_awakeable_command_difference };

    fn write_diff<W: fmt::Write>(&self, expected: &Self, f: &mut fmt::Formatter<W>) -> fmt::Result {
        write_field(
            f,
            "awakeable_id",
            &self.awakeable_id,
            &expected.awakeable_id,
        )?;
        write_payload(f, "result", &self.result, &expected.result)?;
        write_field(f, "name", &self.name, &expected.name)
    }

    ghost silent = { silent_told (complete_awakeable_command_tells false) complete_awakeable_command_lines (λ x y. refl) };
}

impl CommandMessageHeaderDiff for CallCommandMessage {
    ghost difference = { call_command_difference };

    fn write_diff<W: fmt::Write>(&self, expected: &Self, f: &mut fmt::Formatter<W>) -> fmt::Result {
        write_field(
            f,
            "service_name",
            &self.service_name,
            &expected.service_name,
        )?;
        write_field(
            f,
            "handler_name",
            &self.handler_name,
            &expected.handler_name,
        )?;
        write_payload(f, "parameter", &self.parameter, &expected.parameter)?;
        write_field(f, "headers", &self.headers, &expected.headers)?;
        write_field(f, "key", &self.key, &expected.key)?;
        write_field(
            f,
            "idempotency_key",
            &self.idempotency_key,
            &expected.idempotency_key,
        )?;
        write_field(f, "scope", &self.scope, &expected.scope)?;
        write_field(f, "limit_key", &self.limit_key, &expected.limit_key)?;
        write_field(
            f,
            "invocation_id_notification_idx",
            &self.invocation_id_notification_idx,
            &expected.invocation_id_notification_idx,
        )?;
        write_id(f, self.result_completion_id, expected.result_completion_id)?;
        write_field(f, "name", &self.name, &expected.name)
    }

    ghost silent = { silent_told (call_command_tells false) call_command_lines (λ x y. refl) };
}

impl CommandMessageHeaderDiff for OneWayCallCommandMessage {
    ghost difference = { one_way_call_command_difference };

    fn write_diff<W: fmt::Write>(&self, expected: &Self, f: &mut fmt::Formatter<W>) -> fmt::Result {
        write_field(
            f,
            "service_name",
            &self.service_name,
            &expected.service_name,
        )?;
        write_field(
            f,
            "handler_name",
            &self.handler_name,
            &expected.handler_name,
        )?;
        write_payload(f, "parameter", &self.parameter, &expected.parameter)?;
        write_field(f, "headers", &self.headers, &expected.headers)?;
        write_field(f, "key", &self.key, &expected.key)?;
        write_field(
            f,
            "idempotency_key",
            &self.idempotency_key,
            &expected.idempotency_key,
        )?;
        write_field(f, "scope", &self.scope, &expected.scope)?;
        write_field(f, "limit_key", &self.limit_key, &expected.limit_key)?;
        write_field(
            f,
            "invocation_id_notification_idx",
            &self.invocation_id_notification_idx,
            &expected.invocation_id_notification_idx,
        )?;
        write_field(f, "name", &self.name, &expected.name)
    }

    ghost silent = { silent_told (one_way_call_command_tells false) one_way_call_command_lines (λ x y. refl) };
}
