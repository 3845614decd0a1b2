//! The one table of the records: each field's number and kind.
#![tactic(auto)]

pub mod table;
