//! A handler that makes the calls of a list, one after the other, whatever they are answered, and then ends.
#![tactic(auto)]

mod steps;

pub use steps::{Step, Steps, step_named};
