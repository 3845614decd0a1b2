//! Deliveries between invocations, made ready: the row of a message is written with its request's frame, and goes with what the message brings.
//!
//! The rows are the state of the object whose name is empty, which is that of no invocation.
#![tactic(auto)]

ghost use Rattle.store_deliveries.specs.Awakeables.{AwakeablesAreRead};
ghost use Rattle.store_deliveries.specs.PreparedRows.{PlacesAreAsked, RowsAreWritten};

mod awakeable;
mod deliver;
mod delivery;
mod owed;
mod prepare;
mod read;
mod recorded;
mod row;

pub use deliver::prepare_delivery;
pub use delivery::PreparedDelivery;
pub use owed::owed_messages;
pub use prepare::add_rows;
pub use row::OwedMessage;

/// What a frame writes tells the row of its request.
pub fn places_are_asked()
    ensures { PlacesAreAsked }
{}

/// The text that names an awakeable is read as what it is spelled of.
pub fn awakeables_are_read()
    ensures { AwakeablesAreRead }
{}

/// What is written of rows is what requests write that change the state of their object.
pub fn rows_are_written()
    ensures { RowsAreWritten }
{}
