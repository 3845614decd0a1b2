//! Handlers of one's own, as straight-line code.
#![tactic(auto)]

pub mod counter;
pub mod offers;
pub mod order;
pub mod rounds;
pub mod values;
