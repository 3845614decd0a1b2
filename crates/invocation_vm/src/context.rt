//! The count of an attempt's commands and ids, what is known of its object's state, and what it has written.
pub use vm_context::{EagerGetState, EagerGetStateKeys, EagerState, IdsExhausted, Journal, Output};
