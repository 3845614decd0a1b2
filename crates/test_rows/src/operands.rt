//! Operands of rows, and how bytes are printed. `-` alone is no bytes and the empty text.
use std::alloc::Global;
use std::fmt;

/// Bytes, printed as hexadecimal digits.
#[derive(Clone, Copy)]
pub struct Hex<'a>(pub &'a [u8]);

impl fmt::Display for Hex<'_> {
    fn fmt<W: fmt::Write>(&self, f: &mut fmt::Formatter<W>) -> fmt::Result {
        if self.0.is_empty() {
            return f.write_str("-");
        }
        for byte in self.0 {
            let byte = *byte;
            write!(f, "{byte:02x}")?;
        }
        Ok(())
    }
}

/// A text that may be empty.
pub fn text(operand: &str) -> &str {
    if operand == "-" { "" } else { operand }
}

/// The bytes of hexadecimal digits.
pub fn bytes(alloc: Global, operand: &str) -> Option<Vec<u8>> {
    hex::decode(alloc, text(operand).as_bytes()).ok()
}

/// A number of decimal digits.
pub fn number(operand: &str) -> Option<u32> {
    operand.parse().ok()
}

/// The text for an answer that takes no memory to make.
pub fn told(alloc: Global, text: &str) -> Option<String> {
    String::from_str(alloc, text).ok()
}
