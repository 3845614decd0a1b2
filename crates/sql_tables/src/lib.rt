//! Tables by SQL: their layout, the cells of their rows, and what each form of statement does to one table.
#![tactic(auto)]

pub mod cell;
pub mod layout;
pub mod query;
pub mod read;
pub mod stored;
