// The commands: which request each stands for, and what it asks for.
ghost use Rattle.std.specs.Prelude.{◌≡◌, Some, IfOk, refl};
ghost use Rattle.protocol_laws.specs.Commands.{CommandRecord as records};
ghost use Rattle.protocol_laws.specs.Requests.{request_of_output, request_of_get_lazy_state, request_of_get_eager_state, request_of_get_lazy_state_keys, request_of_get_eager_state_keys, request_of_set_state, request_of_clear_state, request_of_clear_all_state, request_of_get_promise, request_of_peek_promise, request_of_complete_promise, request_of_sleep, request_of_call, request_of_one_way_call, request_of_send_signal, request_of_run, request_of_attach_invocation, request_of_get_invocation_output, request_of_complete_awakeable};
ghost use Rattle.store_frames.specs.Commands.{spells};
ghost use Rattle.store_frames.specs.RecordFrames.{told_by_type};

use crate::command::{AskedFor, CommandRecord, read_command};
use crate::fault::read_other;
use crate::frame::{AttemptFrame, StateUse};
use crate::keys::{are_text, is_key_text};
use protocol_calls::{
    AttachInvocationCommandMessage, CallCommandMessage, CompleteAwakeableCommandMessage,
    GetInvocationOutputCommandMessage, OneWayCallCommandMessage, SendSignalCommandMessage,
};
use protocol_commands::{
    ClearAllStateCommandMessage, ClearStateCommandMessage, CompletePromiseCommandMessage,
    GetEagerStateCommandMessage, GetEagerStateKeysCommandMessage, GetLazyStateCommandMessage,
    GetLazyStateKeysCommandMessage, GetPromiseCommandMessage, PeekPromiseCommandMessage,
    RunCommandMessage, SetStateCommandMessage,
};
use protocol_records::{OutputCommandMessage, SleepCommandMessage};
use protocol_stream::MessageType;
use std::alloc::{AllocError, Global};

impl CommandRecord for OutputCommandMessage {
    ghost request_of = { request_of_output };

    fn asked(&self) -> Result<Option<AskedFor>, AllocError> {
        match &self.result {
            Some(_) => Ok(Some(AskedFor::of(MessageType::OutputCommand, None, None))),
            None => Ok(None),
        }
    }

    ghost spelled = { spells records.Output (λ one. refl) (λ one. refl) };
}

impl CommandRecord for GetLazyStateCommandMessage {
    ghost request_of = { λ one. Some (request_of_get_lazy_state one) };

    fn asked(&self) -> Result<Option<AskedFor>, AllocError> {
        let read = StateUse::ReadValue {
            key: self.key.clone()?,
        };
        let is_key_text = is_key_text(&self.key);
        Ok(Some(AskedFor::of_keys(
            MessageType::GetLazyStateCommand,
            Some(self.result_completion_id),
            read,
            is_key_text,
        )))
    }

    ghost spelled = { spells records.GetLazyState (λ one. refl) (λ one. refl) };
}

impl CommandRecord for GetEagerStateCommandMessage {
    ghost request_of = { request_of_get_eager_state };

    fn asked(&self) -> Result<Option<AskedFor>, AllocError> {
        match &self.result {
            Some(_) => {
                let is_key_text = is_key_text(&self.key);
                Ok(Some(AskedFor::of_keys(
                    MessageType::GetEagerStateCommand,
                    None,
                    StateUse::Nothing,
                    is_key_text,
                )))
            }
            None => Ok(None),
        }
    }

    ghost spelled = { spells records.GetEagerState (λ one. refl) (λ one. refl) };
}

impl CommandRecord for GetLazyStateKeysCommandMessage {
    ghost request_of = { λ one. Some (request_of_get_lazy_state_keys one) };

    fn asked(&self) -> Result<Option<AskedFor>, AllocError> {
        Ok(Some(AskedFor::of_keys(
            MessageType::GetLazyStateKeysCommand,
            Some(self.result_completion_id),
            StateUse::ReadKeys,
            true,
        )))
    }

    ghost spelled = { spells records.GetLazyStateKeys (λ one. refl) (λ one. refl) };
}

impl CommandRecord for GetEagerStateKeysCommandMessage {
    ghost request_of = { request_of_get_eager_state_keys };

    fn asked(&self) -> Result<Option<AskedFor>, AllocError> {
        match &self.value {
            Some(value) => {
                let are_keys_text = are_text(value.keys.as_slice());
                Ok(Some(AskedFor::of_keys(
                    MessageType::GetEagerStateKeysCommand,
                    None,
                    StateUse::Nothing,
                    are_keys_text,
                )))
            }
            None => Ok(None),
        }
    }

    ghost spelled = { spells records.GetEagerStateKeys (λ one. refl) (λ one. refl) };
}

impl CommandRecord for SetStateCommandMessage {
    ghost request_of = { request_of_set_state };

    fn asked(&self) -> Result<Option<AskedFor>, AllocError> {
        match &self.value {
            Some(value) => {
                let key = self.key.clone()?;
                let put = StateUse::Put {
                    key,
                    value: value.content.clone()?,
                };
                let is_key_text = is_key_text(&self.key);
                Ok(Some(AskedFor::of_keys(MessageType::SetStateCommand, None, put, is_key_text)))
            }
            None => Ok(None),
        }
    }

    ghost spelled = { spells records.SetState (λ one. refl) (λ one. refl) };
}

impl CommandRecord for ClearStateCommandMessage {
    ghost request_of = { λ one. Some (request_of_clear_state one) };

    fn asked(&self) -> Result<Option<AskedFor>, AllocError> {
        let remove = StateUse::Remove {
            key: self.key.clone()?,
        };
        let is_key_text = is_key_text(&self.key);
        Ok(Some(AskedFor::of_keys(MessageType::ClearStateCommand, None, remove, is_key_text)))
    }

    ghost spelled = { spells records.ClearState (λ one. refl) (λ one. refl) };
}

impl CommandRecord for ClearAllStateCommandMessage {
    ghost request_of = { λ one. Some (request_of_clear_all_state one) };

    fn asked(&self) -> Result<Option<AskedFor>, AllocError> {
        Ok(Some(AskedFor::of_keys(
            MessageType::ClearAllStateCommand,
            None,
            StateUse::RemoveAll,
            true,
        )))
    }

    ghost spelled = { spells records.ClearAllState (λ one. refl) (λ one. refl) };
}

impl CommandRecord for GetPromiseCommandMessage {
    ghost request_of = { λ one. Some (request_of_get_promise one) };

    fn asked(&self) -> Result<Option<AskedFor>, AllocError> {
        Ok(Some(AskedFor::of(
            MessageType::GetPromiseCommand,
            Some(self.result_completion_id),
            None,
        )))
    }

    ghost spelled = { spells records.GetPromise (λ one. refl) (λ one. refl) };
}

impl CommandRecord for PeekPromiseCommandMessage {
    ghost request_of = { λ one. Some (request_of_peek_promise one) };

    fn asked(&self) -> Result<Option<AskedFor>, AllocError> {
        Ok(Some(AskedFor::of(
            MessageType::PeekPromiseCommand,
            Some(self.result_completion_id),
            None,
        )))
    }

    ghost spelled = { spells records.PeekPromise (λ one. refl) (λ one. refl) };
}

impl CommandRecord for CompletePromiseCommandMessage {
    ghost request_of = { request_of_complete_promise };

    fn asked(&self) -> Result<Option<AskedFor>, AllocError> {
        match &self.completion {
            Some(_) => Ok(Some(AskedFor::of(
                MessageType::CompletePromiseCommand,
                Some(self.result_completion_id),
                None,
            ))),
            None => Ok(None),
        }
    }

    ghost spelled = { spells records.CompletePromise (λ one. refl) (λ one. refl) };
}

impl CommandRecord for SleepCommandMessage {
    ghost request_of = { λ one. Some (request_of_sleep one) };

    fn asked(&self) -> Result<Option<AskedFor>, AllocError> {
        Ok(Some(AskedFor {
            kind: MessageType::SleepCommand,
            completion: Some(self.result_completion_id),
            second_completion: None,
            moment: self.wake_up_time,
            state: StateUse::Nothing,
            are_keys_text: true,
        }))
    }

    ghost spelled = { spells records.Sleep (λ one. refl) (λ one. refl) };
}

impl CommandRecord for CallCommandMessage {
    ghost request_of = { λ one. Some (request_of_call one) };

    fn asked(&self) -> Result<Option<AskedFor>, AllocError> {
        Ok(Some(AskedFor::of(
            MessageType::CallCommand,
            Some(self.invocation_id_notification_idx),
            Some(self.result_completion_id),
        )))
    }

    ghost spelled = { spells records.CallService (λ one. refl) (λ one. refl) };
}

impl CommandRecord for OneWayCallCommandMessage {
    ghost request_of = { λ one. Some (request_of_one_way_call one) };

    fn asked(&self) -> Result<Option<AskedFor>, AllocError> {
        Ok(Some(AskedFor::of(
            MessageType::OneWayCallCommand,
            Some(self.invocation_id_notification_idx),
            None,
        )))
    }

    ghost spelled = { spells records.OneWayCall (λ one. refl) (λ one. refl) };
}

impl CommandRecord for SendSignalCommandMessage {
    ghost request_of = { request_of_send_signal };

    fn asked(&self) -> Result<Option<AskedFor>, AllocError> {
        match (&self.signal_id, &self.result) {
            (Some(_), Some(_)) => Ok(Some(AskedFor::of(
                MessageType::SendSignalCommand,
                None,
                None,
            ))),
            _ => Ok(None),
        }
    }

    ghost spelled = { spells records.SendSignal (λ one. refl) (λ one. refl) };
}

impl CommandRecord for RunCommandMessage {
    ghost request_of = { λ one. Some (request_of_run one) };

    fn asked(&self) -> Result<Option<AskedFor>, AllocError> {
        Ok(Some(AskedFor::of(
            MessageType::RunCommand,
            Some(self.result_completion_id),
            None,
        )))
    }

    ghost spelled = { spells records.Run (λ one. refl) (λ one. refl) };
}

impl CommandRecord for AttachInvocationCommandMessage {
    ghost request_of = { request_of_attach_invocation };

    fn asked(&self) -> Result<Option<AskedFor>, AllocError> {
        match &self.target {
            Some(_) => Ok(Some(AskedFor::of(
                MessageType::AttachInvocationCommand,
                Some(self.result_completion_id),
                None,
            ))),
            None => Ok(None),
        }
    }

    ghost spelled = { spells records.AttachInvocation (λ one. refl) (λ one. refl) };
}

impl CommandRecord for GetInvocationOutputCommandMessage {
    ghost request_of = { request_of_get_invocation_output };

    fn asked(&self) -> Result<Option<AskedFor>, AllocError> {
        match &self.target {
            Some(_) => Ok(Some(AskedFor::of(
                MessageType::GetInvocationOutputCommand,
                Some(self.result_completion_id),
                None,
            ))),
            None => Ok(None),
        }
    }

    ghost spelled = { spells records.GetInvocationOutput (λ one. refl) (λ one. refl) };
}

impl CommandRecord for CompleteAwakeableCommandMessage {
    ghost request_of = { request_of_complete_awakeable };

    fn asked(&self) -> Result<Option<AskedFor>, AllocError> {
        match &self.result {
            Some(_) => Ok(Some(AskedFor::of(MessageType::CompleteAwakeableCommand, None, None))),
            None => Ok(None),
        }
    }

    ghost spelled = { spells records.CompleteAwakeable (λ one. refl) (λ one. refl) };
}

/// What is kept of a message of a command's type.
pub(crate) fn read_by_type(
    alloc: Global,
    ty: MessageType,
    payload: &[u8],
) -> Result<AttemptFrame, AllocError>
    ensures { IfOk result (λ frame. frame ≡ told_by_type ty payload.now) }
{
    match ty {
        MessageType::OutputCommand => read_command::<OutputCommandMessage>(alloc, payload),
        MessageType::GetLazyStateCommand => read_command::<GetLazyStateCommandMessage>(
            alloc, payload,
        ),
        MessageType::GetEagerStateCommand => read_command::<GetEagerStateCommandMessage>(
            alloc, payload,
        ),
        MessageType::GetLazyStateKeysCommand => read_command::<GetLazyStateKeysCommandMessage>(
            alloc, payload,
        ),
        MessageType::GetEagerStateKeysCommand => read_command::<GetEagerStateKeysCommandMessage>(
            alloc, payload,
        ),
        MessageType::SetStateCommand => read_command::<SetStateCommandMessage>(alloc, payload),
        MessageType::ClearStateCommand => read_command::<ClearStateCommandMessage>(alloc, payload),
        MessageType::ClearAllStateCommand => read_command::<ClearAllStateCommandMessage>(
            alloc, payload,
        ),
        MessageType::GetPromiseCommand => read_command::<GetPromiseCommandMessage>(alloc, payload),
        MessageType::PeekPromiseCommand => read_command::<PeekPromiseCommandMessage>(
            alloc, payload,
        ),
        MessageType::CompletePromiseCommand => read_command::<CompletePromiseCommandMessage>(
            alloc, payload,
        ),
        MessageType::SleepCommand => read_command::<SleepCommandMessage>(alloc, payload),
        MessageType::CallCommand => read_command::<CallCommandMessage>(alloc, payload),
        MessageType::OneWayCallCommand => read_command::<OneWayCallCommandMessage>(alloc, payload),
        MessageType::SendSignalCommand => read_command::<SendSignalCommandMessage>(alloc, payload),
        MessageType::RunCommand => read_command::<RunCommandMessage>(alloc, payload),
        MessageType::AttachInvocationCommand => read_command::<AttachInvocationCommandMessage>(
            alloc, payload,
        ),
        MessageType::GetInvocationOutputCommand => read_command::<
            GetInvocationOutputCommandMessage,
        >(alloc, payload),
        MessageType::CompleteAwakeableCommand => read_command::<CompleteAwakeableCommandMessage>(
            alloc, payload,
        ),
        _ => Ok(read_other(ty, payload, AttemptFrame::Broken)),
    }
}
