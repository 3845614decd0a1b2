// How numbers, texts, bytes, and what may be absent or come more than once are printed.
ghost use Rattle.std.specs.Prelude.{◌≡◌, ◌<◌, ◌∷◌, ◌++◌, [], decimal};
ghost use Rattle.std.specs.List.{flat_map};
ghost use Rattle.std.specs.Fmt.{WritesOnOk};
ghost use Rattle.protocol_types.specs.Texts.{quoted, is_plain_byte, numbered_byte, escaped_byte, escaped, optional_text, list_text, later_text};

use crate::{HexByte, Shown};
use bytes::{ByteStr, Bytes};
use sequence::Sequence;
use std::fmt;
use std::fmt::Write;

impl Shown for u32 {
    ghost text = { decimal };

    fn show<W: fmt::Write>(&self, f: &mut fmt::Formatter<W>) -> fmt::Result {
        let number = *self;
        write!(f, "{number}")
    }
}

impl Shown for ByteStr {
    ghost text = { quoted };

    fn show<W: fmt::Write>(&self, f: &mut fmt::Formatter<W>) -> fmt::Result {
        write!(f, "'{self}'")
    }
}

// Whether a byte is printable ASCII, but no backslash.
fn is_plain(byte: u8) -> bool
    ensures { result ≡ is_plain_byte byte }
{
    31 < byte && byte < 127 && byte != b'\\'
}

// A byte by its number.
fn show_number<W: fmt::Write>(byte: u8, f: &mut fmt::Formatter<W>) -> fmt::Result
    ensures { WritesOnOk W.write_str_gives f.old result (numbered_byte byte) f.new }
{
    let digits = HexByte(byte);
    write!(f, "\\x{digits}")
}

fn show_letter<W: fmt::Write>(byte: u8, f: &mut fmt::Formatter<W>) -> fmt::Result
    requires { byte < 127 }
    ensures { WritesOnOk W.write_str_gives f.old result (byte ∷ []) f.new }
{
    let letter = char::from(byte);
    write!(f, "{letter}")
}

// Bytes that need not be text.
fn show_bytes<W: fmt::Write>(bytes: &[u8], f: &mut fmt::Formatter<W>) -> fmt::Result
    ensures { WritesOnOk W.write_str_gives f.old result (flat_map escaped_byte bytes.now) f.new }
{
    for byte in bytes {
        show_byte(*byte, f)?;
    }
    Ok(())
}

fn show_byte<W: fmt::Write>(byte: u8, f: &mut fmt::Formatter<W>) -> fmt::Result
    ensures { WritesOnOk W.write_str_gives f.old result (escaped_byte byte) f.new }
{
    if is_plain(byte) {
        show_letter(byte, f)
    } else {
        show_number(byte, f)
    }
}

impl Shown for Bytes {
    ghost text = { escaped };

    fn show<W: fmt::Write>(&self, f: &mut fmt::Formatter<W>) -> fmt::Result {
        write!(f, "'")?;
        show_bytes(self.as_slice(), f)?;
        write!(f, "'")
    }
}

impl<T: Shown> Shown for Option<T> {
    ghost text = { optional_text T.text };

    fn show<W: fmt::Write>(&self, f: &mut fmt::Formatter<W>) -> fmt::Result {
        match self {
            None => write!(f, "none"),
            Some(value) => value.show(f),
        }
    }
}

// The items behind the first one.
fn show_later<T: Shown, W: fmt::Write>(items: &[T], f: &mut fmt::Formatter<W>) -> fmt::Result
    ensures { WritesOnOk W.write_str_gives f.old result (flat_map (later_text T.text) items.now) f.new }
{
    for item in items {
        show_labelled(", ", item, f)?;
    }
    Ok(())
}

impl<T: Shown> Shown for Sequence<T> {
    ghost text = { list_text T.text };

    fn show<W: fmt::Write>(&self, f: &mut fmt::Formatter<W>) -> fmt::Result {
        match self.as_slice() {
            [] => write!(f, "[]"),
            [first, rest @ ..] => {
                write!(f, "[")?;
                first.show(f)?;
                show_later(rest, f)?;
                write!(f, "]")
            }
        }
    }
}

/// A value behind words that say what it is.
pub fn show_labelled<T: Shown, W: fmt::Write>(
    label: &str,
    value: &T,
    f: &mut fmt::Formatter<W>,
) -> fmt::Result
    ensures { WritesOnOk W.write_str_gives f.old result (label.now ++ T.text value.now) f.new }
{
    write!(f, "{label}")?;
    value.show(f)
}
