//! The records of control frames that nothing else holds, of reads of state that are not recorded, and the one record of every
//! completion notification and of the signal notification.
#![tactic(auto)]

mod error;
mod get_state_ephemeral_command;
mod get_state_ephemeral_notification;
mod notification;
mod propose_run_completion;
mod propose_run_completion_ack;

pub use error::ErrorMessage;
pub use get_state_ephemeral_command::GetStateEphemeralCommandMessage;
pub use get_state_ephemeral_notification::{
    GetStateEphemeralNotificationMessage, GetStateEphemeralNotificationResult,
};
pub use notification::{NotificationMessage, NotificationMessageId, NotificationMessageResult};
pub use propose_run_completion::{ProposeRunCompletionMessage, ProposeRunCompletionResult};
pub use propose_run_completion_ack::ProposeRunCompletionAckMessage;
