//! The records of commands towards other invocations: calls, signals, attaching and awakeables.
#![tactic(auto)]

mod attach_invocation_command;
mod call_command;
mod complete_awakeable_command;
mod get_invocation_output_command;
mod idempotent_request_target;
mod invocation_target;
mod one_way_call_command;
mod send_signal_command;
mod shown;
mod workflow_target;

pub use attach_invocation_command::AttachInvocationCommandMessage;
pub use call_command::CallCommandMessage;
pub use complete_awakeable_command::{
    CompleteAwakeableCommandMessage, CompleteAwakeableCommandResult,
};
pub use get_invocation_output_command::GetInvocationOutputCommandMessage;
pub use idempotent_request_target::IdempotentRequestTarget;
pub use invocation_target::{
    InvocationTarget, InvocationTarget as AttachInvocationCommandTarget,
    InvocationTarget as GetInvocationOutputCommandTarget,
};
pub use one_way_call_command::OneWayCallCommandMessage;
pub use send_signal_command::{
    SendSignalCommandMessage, SendSignalCommandResult, SendSignalCommandSignalId,
};
pub use workflow_target::WorkflowTarget;
