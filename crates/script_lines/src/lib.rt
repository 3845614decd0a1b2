//! The script: its lines, the texts that it prints, how they are written, and why it does not come to its end.
#![tactic(auto)]

pub mod arrival;
pub mod fault;
pub mod flaw;
pub mod line;
pub mod outcome;
pub mod output;
pub mod reading;
pub mod script;
pub mod target;
pub mod text;
pub mod value;
pub mod word;
