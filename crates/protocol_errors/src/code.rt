// The numbers of errors.
ghost use Rattle.std.specs.Prelude.{◌≡◌, Some, decimal};
ghost use Rattle.protocol_errors.specs.Code.{code_numbered, code_fitting};

use std::fmt;

/// The number that says what kind of error it is.
#[derive(Clone, Copy, PartialEq, Eq)]
pub struct InvocationErrorCode(u16);

impl InvocationErrorCode {
    /// The code with this number.
    pub const fn new(code: u16) -> InvocationErrorCode
        ensures { result ≡ code_numbered code }
    {
        InvocationErrorCode(code)
    }

    /// The number of the code.
    pub const fn code(self) -> u16
        ensures { result ≡ self.0 }
    {
        self.0
    }
}

/// Prints the number.
impl fmt::Debug for InvocationErrorCode {
    fn fmt<W: fmt::Write>(&self, f: &mut fmt::Formatter<W>) -> fmt::Result {
        let number = self.0;
        write!(f, "{number}")
    }
}

/// Prints the number.
impl fmt::Display for InvocationErrorCode {
    ghost output = { λ code. Some (decimal code.0) };

    fn fmt<W: fmt::Write>(&self, f: &mut fmt::Formatter<W>) -> fmt::Result {
        let number = self.0;
        write!(f, "{number}")
    }
}

impl From<u16> for InvocationErrorCode {
    ghost from_gives = { λ number code. code ≡ code_numbered number };

    fn from(number: u16) -> InvocationErrorCode {
        InvocationErrorCode(number)
    }
}

/// A number of more than sixteen bits becomes `INTERNAL`.
impl From<u32> for InvocationErrorCode {
    ghost from_gives = { λ number code. code ≡ code_fitting number };

    fn from(number: u32) -> InvocationErrorCode {
        match u16::try_from(number) {
            Ok(number) => InvocationErrorCode(number),
            Err(_) => codes::INTERNAL,
        }
    }
}

impl From<InvocationErrorCode> for u16 {
    ghost from_gives = { λ code number. number ≡ code.0 };

    fn from(code: InvocationErrorCode) -> u16 {
        code.0
    }
}

impl From<InvocationErrorCode> for u32 {
    ghost from_gives = { λ code number. number ≡ code.0 };

    fn from(code: InvocationErrorCode) -> u32 {
        u32::from(code.0)
    }
}

/// The codes with a name.
pub mod codes {
    use super::InvocationErrorCode;

    /// A header of the request cannot be read.
    pub const BAD_REQUEST: InvocationErrorCode = InvocationErrorCode(400);
    /// The request has no content type, or one of no version that is spoken.
    pub const UNSUPPORTED_MEDIA_TYPE: InvocationErrorCode = InvocationErrorCode(415);
    /// A call that cannot be carried out, or a limit.
    pub const INTERNAL: InvocationErrorCode = InvocationErrorCode(500);
    /// The handler does not do what the journal says that it did.
    pub const JOURNAL_MISMATCH: InvocationErrorCode = InvocationErrorCode(570);
    /// The other side sent what it may not send.
    pub const PROTOCOL_VIOLATION: InvocationErrorCode = InvocationErrorCode(571);
    /// Carried by no error here.
    pub const AWAITING_TWO_ASYNC_RESULTS: InvocationErrorCode = InvocationErrorCode(572);
    /// Later versions of the protocol have it.
    pub const UNSUPPORTED_FEATURE: InvocationErrorCode = InvocationErrorCode(573);
    /// A call came behind the end.
    pub const CLOSED: InvocationErrorCode = InvocationErrorCode(598);
    /// The attempt was suspended.
    pub const SUSPENDED: InvocationErrorCode = InvocationErrorCode(599);
}
