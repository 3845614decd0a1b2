//! The lines of a store that is a process: requests as they are read, and replies as they are written.
//!
//! A request is a line of words with one space between two. A text or bytes may hold anything: `%XX` is the byte XX.
#![tactic(auto)]

pub mod command;
pub mod laws;
pub mod reply;
pub mod request;
pub mod word;
