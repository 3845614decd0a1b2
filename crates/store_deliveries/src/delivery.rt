//! What is made ready of a delivery.

use store_tables::Write;

/// What comes of a try to deliver the message of a number.
#[derive(Debug, Drop)]
pub enum PreparedDelivery {
    /// No message of that number is owed.
    Settled,
    /// What it brings, and that its row goes: one transaction.
    Ready(Vec<Write>),
}
