//! What stands on the stream between a runtime and an invocation: types, headers and framing.
#![tactic(auto)]

mod buffer;
mod command_facts;
mod command_type;
mod conversion;
mod decoder;
mod encoder;
mod error_text;
mod first;
mod frame;
mod header;
pub mod laws;
mod request_headers;

pub use buffer::FrameBuffer;
pub use command_facts::{CommandFacts, CompletedBy, Completion, Completions, Kept};
pub use command_type::CommandType;
pub use conversion::{
    to_arrived_failure_record, to_failure, to_failure_record, to_header, to_header_record,
    to_header_records, to_headers, to_non_empty_value, to_output_result, to_terminal_failure,
};
pub use decoder::{Decoder, DecodingError, NotificationField, RawMessage};
pub use encoder::{EncodingError, write_message};
pub use first::{FirstItem, first_item};
pub use frame::{HEADER_LEN, begin_frame, frame_of, payload_of_frame, put_frame};
pub use header::MessageHeader;
pub use protocol_types::{ContentTypeError, Feature, MessageType, UnknownMessageType, Version};
pub use request_headers::HeaderMap;
