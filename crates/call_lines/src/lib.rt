//! The lines of a client whose calls a process carries out: lines as they are read, and replies as they are written.
//!
//! A line is of words with one space between two, which are those of `server_lines`. What only asks, or is brought from outside, is a request
//! of `server_lines` too.
#![tactic(auto)]

pub mod call;
pub mod command;
pub mod laws;
pub mod line;
pub mod outcome;
pub mod payload;
pub mod policy;
pub mod reply;
pub mod target;
pub mod tree;
pub mod word;
