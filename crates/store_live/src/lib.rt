//! The attempts that are live, which are kept in memory alone: of each, how far its input was handed to it and what of one frame was not, the
//! output that came and was not taken, and the row of its invocation, which is read no more.
#![tactic(auto)]

mod attempt;
mod attempts;
mod input;
mod row;

pub use attempt::LiveAttempt;
pub use attempts::LiveAttempts;
pub use input::{AttemptInput, FrameRead, NextRow};
pub use protocol_stream::{FirstItem, FrameBuffer, HEADER_LEN};
pub use row::copied_row;
