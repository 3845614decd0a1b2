//! A store as a process: requests are read line by line, and each is answered before the next is read.
#![tactic(auto)]

mod answer;
mod asks;
mod calls;
mod fault;
mod listing;
mod reading;
mod rows;
mod serving;

pub use fault::ServerFault;
pub use listing::{list_store, pages_are_all};
pub use reading::LINE_LIMIT;
pub use rows::{ShownInvocations, ShownRequests};
pub use serving::serve;
