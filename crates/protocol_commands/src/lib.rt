//! The records of commands that stay within an invocation: its object's state, promises and effects.
#![tactic(auto)]

mod clear_all_state_command;
mod clear_state_command;
mod complete_promise_command;
mod get_eager_state_command;
mod get_eager_state_keys_command;
mod get_lazy_state_command;
mod get_lazy_state_keys_command;
mod get_promise_command;
mod peek_promise_command;
mod run_command;
mod set_state_command;
mod shown;

pub use clear_all_state_command::ClearAllStateCommandMessage;
pub use clear_state_command::ClearStateCommandMessage;
pub use complete_promise_command::{
    CompletePromiseCommandCompletion, CompletePromiseCommandMessage,
};
pub use get_eager_state_command::{GetEagerStateCommandMessage, GetEagerStateCommandResult};
pub use get_eager_state_keys_command::GetEagerStateKeysCommandMessage;
pub use get_lazy_state_command::GetLazyStateCommandMessage;
pub use get_lazy_state_keys_command::GetLazyStateKeysCommandMessage;
pub use get_promise_command::GetPromiseCommandMessage;
pub use peek_promise_command::PeekPromiseCommandMessage;
pub use run_command::RunCommandMessage;
pub use set_state_command::SetStateCommandMessage;
