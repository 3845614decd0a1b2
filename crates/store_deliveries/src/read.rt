//! Rows of an outbox, as they are read.

ghost use Rattle.std.specs.Prelude.{◌≡◌, ◌≤◌, ◌<◌, ◌^◌, ℕ, Some, drop, length, option_map, IfErr, IfNone, IfOk, IfSome, IsUtf8};
ghost use Rattle.delivery_laws.specs.Outbox.{digit, hex_text, OwedRow};
ghost use Rattle.store_refusals.specs.Causes.{IsUnasked};
ghost use Rattle.store_refusals.specs.Preparations.{TellsOrRefuses};
ghost use Rattle.store_deliveries.specs.ReadRows.{AreNumbers};
ghost use Rattle.store_deliveries.specs.StoredOutbox.{FitsRow, IsKeptAs, row_told};

use crate::row::OwedMessage;
use bytes::{ByteStr, Bytes};
use std::alloc::AllocError;
use store_refusals::Refusal;
use store_tables::StateRow;

fn digit_in(byte: u8) -> Option<u8>
    ensures found { IfSome result (λ n. (n < 16) × (digit n ≡ byte)) }
    ensures none { IfNone result ((n : ℕ) → n < 16 → digit n ≡ byte → ⊥) }
{
    match byte {
        48..=57 => Some(byte - 48),
        97..=102 => Some(byte - 87),
        _ => None,
    }
}

/// The number that a hex text of at most sixteen digits spells.
pub(crate) fn number_in(text: &[u8]) -> Option<u64>
    ensures found { IfSome result (λ n. (text.now ≡ hex_text (length text.now) n) × (n < 16 ^ length text.now)) }
    ensures none { IfNone result ((digits n : ℕ) → digits < 17 → text.now ≡ hex_text digits n → ⊥) }
{
    if text.len() > 16 {
        return None;
    }
    let mut number = 0_u64;
    for byte in text {
        let digit = digit_in(*byte)?;
        number = number * 16 + u64::from(digit);
    }
    Some(number)
}

/// The number of a row and the place that it names, if it has both.
fn numbers_in(row: &StateRow) -> Option<(u64, u32)>
    ensures found { IfSome result (λ found. AreNumbers row.now found.0 found.1) }
    ensures none { IfNone result ((owed : OwedRow) → IsKeptAs owed row.now → ⊥) }
{
    if row.key.len() != 16 || row.value.len() < 8 {
        return None;
    }
    let number = number_in(row.key.as_slice())?;
    let place = number_in(&row.value.as_slice()[..8])?;
    Some((number, place as u32))
}

/// The sender behind the place, as text.
fn sender_in(value: &Bytes) -> Result<Option<ByteStr>, AllocError>
    requires { 8 ≤ length value.now }
    ensures found { IfOk result (λ sender. IfSome sender (λ text. text ≡ drop 8 value.now)) }
    ensures none { IfOk result (λ sender. IfNone sender (IsUtf8 (drop 8 value.now) → ⊥)) }
{
    match ByteStr::from_utf8(value.slice(8..)?) {
        Ok(sender) => Ok(Some(sender)),
        Err(refused) => {
            drop(refused);
            Ok(None)
        }
    }
}

/// The message of a row, if it is that of one.
fn message_in(row: &StateRow) -> Result<Option<OwedMessage>, AllocError>
    ensures { IfOk result (λ message. (owed : OwedRow) → FitsRow owed → IsKeptAs owed row.now → option_map row_told message ≡ Some owed) }
{
    let Some((number, place)) = numbers_in(row) else {
        return Ok(None);
    };
    match sender_in(&row.value)? {
        Some(sender) => Ok(Some(OwedMessage {
            number,
            sender,
            place,
        })),
        None => Ok(None),
    }
}

/// The message of a row. A row that is that of none is foreign.
pub(crate) fn known_message(row: &StateRow) -> Result<OwedMessage, Refusal>
    ensures told { (owed : OwedRow) → FitsRow owed → IsKeptAs owed row.now → TellsOrRefuses (λ message. row_told message ≡ owed) result }
    ensures unasked { IfErr result IsUnasked }
{
    let found = message_in(row)?;
    match found {
        Some(message) => Ok(message),
        None => Err(Refusal::ForeignRow),
    }
}
