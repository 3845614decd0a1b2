// How a byte is printed by its number.
ghost use Rattle.std.specs.Prelude.{◌≡◌, Some};

use std::fmt;

/// A byte as two hexadecimal digits in lower case.
#[derive(Clone, Copy)]
pub struct HexByte(pub u8);

impl fmt::Display for HexByte {
    ghost use Rattle.protocol_types.specs.Texts.{hex_byte};

    ghost output = { λ byte. Some (hex_byte byte.0) };

    fn fmt<W: fmt::Write>(&self, f: &mut fmt::Formatter<W>) -> fmt::Result {
        let byte = self.0;
        write!(f, "{byte:02x}")
    }
}
