// The headers of a request.
ghost use Rattle.std.specs.Prelude.{◌≡◌, List, Option, ℕ, IfOk, IfErr, option_copied};
ghost use Rattle.protocol_stream.specs.RequestHeaders.{is_same_name};

use bytes::ByteStr;
use std::convert::Infallible;
use std::fmt;

/// The headers of the request that begins an attempt.
///
/// `text_of` is the text that a name has among them, if it has one; `fails` says why the text that a name has cannot be read.
pub trait HeaderMap {
    /// Why a header cannot be read as text.
    type Error: fmt::Debug;

    ghost text_of: { Self → List ℕ → Option (List ℕ) };

    ghost fails: { Self → List ℕ → Self.Error → Type 0 };

    /// The text of the header with this name.
    fn extract(&self, name: &str) -> Result<Option<&str>, Self::Error>
        ensures text { IfOk result (λ found. option_copied found ≡ text_of self.now name.now) }
        ensures why { IfErr result (λ error. fails self.now name.now error) };
}

// Whether two names are one, ignoring the case of ASCII letters.
#[tactic(auto, unfolding(crate::specs::RequestHeaders::is_same_name))]
fn is_same_name(name: &str, other: &str) -> bool
    ensures { result ≡ is_same_name name.now other.now }
{
    name.eq_ignore_ascii_case(other)
}

/// Names with their texts: the first whose name is this one, ignoring the case of ASCII letters.
impl HeaderMap for Vec<(ByteStr, ByteStr)> {
    ghost use Rattle.protocol_stream.specs.RequestHeaders.{header_text};

    type Error = Infallible;

    ghost text_of = { λ pairs name. header_text name pairs.items };

    ghost fails = { λ pairs name error. ⊥ };

    fn extract(&self, name: &str) -> Result<Option<&str>, Infallible> {
        for pair in self.iter() {
            let (key, value) = pair;
            if is_same_name(key.as_str(), name) {
                return Ok(Some(value.as_str()));
            }
        }
        Ok(None)
    }
}
