//! Laws of whole messages. A function does nothing: its contract is the law.

ghost use Rattle.protocol_wire.specs.declared.record.TheConstants.{LEVELS};
ghost use Rattle.protocol_messages.specs.Laws.{MessagesReadBack, SuspensionsReadBack};

use crate::message::RestateMessage;

/// The frame of a record whose numbers are within their types, whose texts are UTF-8, which has at most a hundred levels and
/// whose payload's length fits 32 bits is the item at the front of its bytes, whatever follows them, and that message is read
/// as the same record. It is a frame, so a stream of such frames is read as these messages, however it is cut.
pub fn messages_read_back<M: RestateMessage>()
    ensures { MessagesReadBack M.record_type M.of M.parts (M.fits LEVELS) }
{}

/// The same of suspensions, which are read as their three lists before version 7, and as themselves from then on.
pub fn suspensions_read_back()
    ensures { SuspensionsReadBack }
{}
