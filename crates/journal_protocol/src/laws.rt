//! Laws of the protocol: functions that do nothing, whose contracts are the laws.
pub use protocol_differences::differences_are_shown;
pub use protocol_equality::header_equality_is_an_equivalence;
pub use protocol_laws as records;
pub use protocol_laws::laws as spellings;
pub use protocol_messages::{conversion_laws as conversions, laws as messages};
pub use protocol_stream::laws as stream;
pub use protocol_types::laws as types;
