//! What proofs do not show of the layers below the schedule, as tests: that their calls succeed with ample memory, and worked
//! values that are no rows of data. A crate with tests of its own would be proved twice.
#![tactic(auto)]

#[cfg(test)]
mod answers;
#[cfg(test)]
mod client_lines;
#[cfg(test)]
mod handlers;
#[cfg(test)]
mod live;
#[cfg(test)]
mod reading;
#[cfg(test)]
mod sequences;
#[cfg(test)]
mod values;
#[cfg(test)]
mod writing;
