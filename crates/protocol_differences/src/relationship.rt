use bytes::ByteStr;
use protocol_errors::CommandType;

/// Which command of the journal an error is about.
#[derive(Debug, Clone, PartialEq, Eq, Drop)]
pub enum CommandRelationship {
    /// The one that was asked for last.
    Last,
    /// The one that would be asked for next.
    Next {
        ty: CommandType,
        name: Option<ByteStr>,
    },
    /// The one at a place of the journal.
    Specific {
        command_index: u32,
        ty: CommandType,
        name: Option<ByteStr>,
    },
}
