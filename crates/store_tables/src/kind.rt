// How the type of an entry is kept. A custom one, which no entry has, is kept as a number beyond those of all types, so that each
// type that is written is read back.
ghost use Rattle.std.specs.Prelude.{◌≡◌, ◌<◌, ◌^◌};
ghost use Rattle.protocol_types.specs.MessageType.{type_number};
ghost use Rattle.store_tables.specs.Kinds.{kept_kind, kind_kept};

use protocol_types::MessageType;

const FIRST_CUSTOM: u32 = 0x1_0000;

/// The number that is kept.
pub fn kept_kind(kind: MessageType) -> u32
    ensures number { result ≡ kept_kind kind }
    ensures fits { type_number kind < 2 ^ 16 }
{
    match kind {
        MessageType::CustomEntry(number) => FIRST_CUSTOM + u32::from(number),
        named => u32::from(u16::from(named)),
    }
}

/// The type that is kept as this number.
pub fn kind_kept(number: u32) -> Option<MessageType>
    ensures { result ≡ kind_kept number }
{
    if number < FIRST_CUSTOM {
        return MessageType::with_number(number);
    }
    if number < 2 * FIRST_CUSTOM {
        return Some(MessageType::CustomEntry((number - FIRST_CUSTOM) as u16));
    }
    None
}
