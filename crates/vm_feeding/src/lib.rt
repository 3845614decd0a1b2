//! How a machine begins, what is told it and asked of it, and its calls that put no command, each in any phase.
//!
//! A machine is made of a request and answers how the response begins. It is told bytes, the end of the input and errors of its
//! host, and asked for what it has written and how far it has come. Its calls here read the invocation's input, as it is given before the
//! first call, make a handle for an awakeable or a signal, look at a handle, take of one, and read the object's state ephemerally, which
//! nothing is recorded of.
#![tactic(auto)]

mod answering;
mod asking;
mod awakeables;
mod beginning;
mod closing;
mod ephemeral_taking;
mod failing;
mod feeding;
mod getting;
mod input;
mod laws;
mod looking;
mod reading;
mod refusal;
mod registering;
mod signals;
mod taking;
mod telling;

pub use asking::{is_ready_to_execute, last_command_index, state, take_output};
pub use awakeables::sys_awakeable;
pub use beginning::{begin, get_response_head};
pub use closing::notify_input_closed;
pub use ephemeral_taking::take_ephemeral_notification;
pub use feeding::notify_input;
pub use getting::ephemeral_state_get;
pub use input::input_of;
pub use laws::bytes_come_in_any_cut;
pub use looking::is_completed;
pub use reading::{Reading, sys_input};
pub use signals::create_signal_handle;
pub use taking::take_notification;
pub use telling::notify_error;
