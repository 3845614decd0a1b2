//! A box as a pointer that may be null: what a handle for another language is made of.
//!
//! `Loose` is a box taken apart; `Slot` is one that may be empty, which its pointer says by being null.
#![tactic(auto)]

mod loose;
mod slot;

pub use loose::Loose;
pub use slot::Slot;
