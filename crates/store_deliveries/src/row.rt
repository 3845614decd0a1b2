//! Rows of an outbox, as they are written.

ghost use Rattle.std.specs.Prelude.{◌≡◌, ◌++◌, ◌<◌, ◌^◌, IfOk, OnOk};
ghost use Rattle.delivery_laws.specs.Outbox.{digit, hex_text, outbox_object, row_key, row_value};
ghost use Rattle.store_tables.specs.declared.row.Write.{Write};
ghost use Rattle.store_deliveries.specs.PreparedRows.{drop_write, put_writes};
ghost use Rattle.store_deliveries.specs.StoredOutbox.{row_told};

use bytes::{ByteStr, Bytes};
use std::alloc::{AllocError, Global};
use store_tables::{StateRow, Write};

/// A message that is recorded and was not delivered.
#[derive(Debug, Drop)]
pub struct OwedMessage {
    /// By this it is delivered. Messages that are recorded later have greater numbers.
    pub number: u64,
    pub sender: ByteStr,
    /// The place of its request in the sender's journal.
    pub place: u32,
}

fn digit(n: u8) -> u8
    requires { n < 16 }
    ensures { result ≡ digit n }
{
    if n < 10 { 48 + n } else { 87 + n }
}

/// A number in so many hex digits.
fn hex_text(alloc: Global, number: u64, digits: usize) -> Result<Vec<u8>, AllocError>
    requires { digits < 2 ^ 32 }
    ensures { IfOk result (λ text. text.items ≡ hex_text digits number) }
{
    let mut text = Vec::new(alloc);
    text.resize(digits, 48)?;
    let mut rest = number;
    let mut at = digits;
    while at > 0 {
        at -= 1;
        text[at] = digit((rest % 16) as u8);
        rest /= 16;
    }
    Ok(text)
}

/// Bytes as they are kept.
pub(crate) fn kept_bytes(bytes: Vec<u8>) -> Result<Bytes, AllocError>
    ensures { IfOk result (λ kept. kept ≡ bytes.items) }
{
    match Bytes::from_vec(bytes) {
        Ok(kept) => Ok(kept),
        Err(refused) => {
            drop(refused);
            Err(AllocError)
        }
    }
}

/// The key of a row.
pub(crate) fn row_key(alloc: Global, number: u64) -> Result<Bytes, AllocError>
    ensures { IfOk result (λ key. key ≡ row_key number) }
{
    let text = hex_text(alloc, number, 16)?;
    kept_bytes(text)
}

fn row_value(alloc: Global, message: &OwedMessage) -> Result<Bytes, AllocError>
    ensures { IfOk result (λ value. value ≡ row_value (row_told message.now)) }
{
    let mut text = hex_text(alloc, u64::from(message.place), 8)?;
    text.extend_from_slice(message.sender.as_bytes())?;
    kept_bytes(text)
}

/// The write of a row of the outbox under this key.
fn put(key: Bytes, value: Bytes) -> Write
    ensures { result ≡ Write.PutState (record { object = outbox_object; key = key; value = value }) }
{
    Write::PutState(StateRow {
        object: ByteStr::new(),
        key,
        value,
    })
}

/// Puts the writes of a message behind others: the greatest number that was given, and its row.
pub(crate) fn add_row(
    alloc: Global,
    message: &OwedMessage,
    writes: &mut Vec<Write>,
) -> Result<(), AllocError>
    ensures { OnOk result (writes.new.items ≡ writes.old.items ++ put_writes (row_told message.now)) }
{
    let given = row_key(alloc, message.number)?;
    writes.push(put(Bytes::new(), given))?;
    let key = row_key(alloc, message.number)?;
    let value = row_value(alloc, message)?;
    writes.push(put(key, value))?;
    Ok(())
}

/// The write that drops the row of a number.
pub(crate) fn drop_row(alloc: Global, number: u64) -> Result<Write, AllocError>
    ensures { IfOk result (λ write. write ≡ drop_write number) }
{
    Ok(Write::DropState {
        object: ByteStr::new(),
        key: row_key(alloc, number)?,
    })
}
