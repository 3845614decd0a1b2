//! What the rows of a store tell without a journal: the next frame of a live attempt's input, of which one row at most is read; which
//! invocations an attempt may go on of; when the next sleep ends; the invocations by
//! their ids; and what one has asked of others.
#![tactic(auto)]

mod awake;
mod due_page;
mod frame;
mod next;
mod next_input;
mod page;
mod requests;

pub use awake::awake_ids;
pub use due_page::{due_after, pages_go_on};
pub use next::next_moment;
pub use next_input::next_frame;
pub use page::invocations_after;
pub use requests::{OpenRequest, open_requests};
