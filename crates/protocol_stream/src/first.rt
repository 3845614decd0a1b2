// What stands first among bytes, looked at in its place.
ghost use Rattle.protocol_stream.specs.First.{IsFirst};

use crate::MessageHeader;
use crate::frame::HEADER_LEN;

/// What stands first among bytes.
#[derive(Clone, Copy, Debug)]
pub enum FirstItem<'a> {
    /// No whole frame.
    Partial,
    /// A header of unknown type.
    Unknown,
    Frame {
        header: MessageHeader,
        payload: &'a [u8],
    },
}

/// Looks at the first item of bytes, and takes nothing.
#[tactic(auto, unfolding(crate::specs::Item::item_at))]
pub fn first_item(bytes: &[u8]) -> FirstItem<'_>
    ensures { IsFirst bytes.now result }
{
    let Some((word, rest)) = bytes.split_first_chunk::<HEADER_LEN>() else {
        return FirstItem::Partial;
    };
    let Ok(header) = MessageHeader::try_from(u64::from_be_bytes(*word)) else {
        return FirstItem::Unknown;
    };
    match rest.get(..header.message_length() as usize) {
        Some(payload) => FirstItem::Frame { header, payload },
        None => FirstItem::Partial,
    }
}
