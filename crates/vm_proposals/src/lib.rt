//! The runs of a machine in any phase: one is called, and what the attempt at its body has ended with is proposed.
//!
//! A run that is called is kept, to be executed, exactly where its outcome has not come. Of the end of its body the run's policy says
//! whether an outcome is proposed, or the machine fails and the run is tried again.
#![tactic(auto)]

mod calling;
mod failing;
mod proposing;
mod running;

pub use calling::sys_run;
pub use failing::run_told;
pub use proposing::propose_run_completion;
pub use running::run;
pub use vm_machine::MachineState;
