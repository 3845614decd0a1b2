//! The tables of a journal store: what is recorded of invocations, their journals and the state of objects. Nothing above this
//! crate speaks of rows or of columns, nor of SQL, but where the database refused a statement.
#![tactic(auto)]

mod from_row;
mod kind;
mod laws;
mod layout;
mod opening;
mod order;
mod read;
mod row;
mod tables;
mod write;

pub use laws::refused_for_place;
pub use layout::{is_empty_schema, is_store_schema};
pub use opening::{is_ready, open};
pub use read::{
    arrival_at, arrivals_after, awake_id_rows, entry_at, entry_by_answered, entry_by_completion,
    entry_by_second_completion, first_invocation, first_sleep, invocation_after, invocation_by_id,
    journal, open_invocation, sleeps_until, state_at, states_of,
};
pub use row::{
    Closing, EntryRow, IdRow, InvocationRow, LastError, Progress, SleepRow, StateRow, Write,
};
pub use sql_tables::read::ReadError;
pub use tables::StoreTables;
pub use write::commit_all;
