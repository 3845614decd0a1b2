//! What is awaited, as a vector of nodes in preorder with counts of their children.
#![tactic(auto)]

pub mod awake;
pub mod climbing;
pub mod delivering;
pub mod left;
pub mod node;
pub mod opening;
