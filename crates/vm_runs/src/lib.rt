//! The runs of an attempt: which are to be executed, which are being executed, and which outcomes wait for their acknowledgement.
#![tactic(auto)]

mod least;
mod run;
mod run_state;
mod table;

pub use run::Run;
pub use run_state::RunState;
