// Versions of the protocol, and the content types that name them.
ghost use Rattle.std.specs.Prelude.{◌≡◌, ◌≤◌, ◌↔◌, IsTrue, Some};
ghost use Rattle.protocol_types.specs.Version.{version_number, version_name, version_content_type, has_content_type, version_at, version_with, content_type_read, has_restate_prefix, is_unsupported, version_spoken, newest_version, oldest_version};

use bytes::ByteStr;
use std::fmt;
use thiserror::Error;

/// How each content type of the protocol begins.
const RESTATE_PREFIX: &[u8] = b"application/vnd.restate.invocation.";

/// A version of the protocol. A later one is greater.
#[derive(Clone, Copy, Debug, PartialEq, Eq, PartialOrd, Ord)]
pub enum Version {
    V1,
    V2,
    V3,
    V4,
    V5,
    V6,
    V7,
    V8,
    V9,
}

/// The text of a content type that names no version.
#[derive(Debug, Drop, Error)]
pub enum ContentTypeError {
    /// It begins as the content types of this protocol do.
    #[error("unsupported protocol version '{0}'")]
    RestateContentType(ByteStr),
    /// It is of something else.
    #[error("unrecognized content-type '{0}', this is not a restate protocol")]
    OtherContentType(ByteStr),
}

impl Version {
    /// The content type of requests and responses in this version.
    pub fn content_type(&self) -> &'static str
        ensures { result.now ≡ version_content_type self.now }
    {
        match self {
            Version::V1 => "application/vnd.restate.invocation.v1",
            Version::V2 => "application/vnd.restate.invocation.v2",
            Version::V3 => "application/vnd.restate.invocation.v3",
            Version::V4 => "application/vnd.restate.invocation.v4",
            Version::V5 => "application/vnd.restate.invocation.v5",
            Version::V6 => "application/vnd.restate.invocation.v6",
            Version::V7 => "application/vnd.restate.invocation.v7",
            Version::V8 => "application/vnd.restate.invocation.v8",
            Version::V9 => "application/vnd.restate.invocation.v9",
        }
    }

    /// Whether this is the content type of the version, to the letter.
    #[tactic(auto, unfolding(crate::specs::Version::has_content_type))]
    pub fn has_content_type(&self, text: &str) -> bool
        ensures { result ≡ has_content_type text.now self.now }
    {
        self.content_type() == text
    }

    /// The version's name.
    pub fn name(self) -> &'static str
        ensures { result.now ≡ version_name self }
    {
        match self {
            Version::V1 => "V1",
            Version::V2 => "V2",
            Version::V3 => "V3",
            Version::V4 => "V4",
            Version::V5 => "V5",
            Version::V6 => "V6",
            Version::V7 => "V7",
            Version::V8 => "V8",
            Version::V9 => "V9",
        }
    }

    /// The number that stands behind the `v`.
    pub fn number(self) -> u32
        ensures { result ≡ version_number self }
    {
        match self {
            Version::V1 => 1,
            Version::V2 => 2,
            Version::V3 => 3,
            Version::V4 => 4,
            Version::V5 => 5,
            Version::V6 => 6,
            Version::V7 => 7,
            Version::V8 => 8,
            Version::V9 => 9,
        }
    }

    /// The version with this number, from 1 to 9.
    pub fn with_number(number: u32) -> Option<Version>
        ensures { result ≡ version_at number }
    {
        match number {
            1 => Some(Version::V1),
            2 => Some(Version::V2),
            3 => Some(Version::V3),
            4 => Some(Version::V4),
            5 => Some(Version::V5),
            6 => Some(Version::V6),
            7 => Some(Version::V7),
            8 => Some(Version::V8),
            9 => Some(Version::V9),
            _ => None,
        }
    }

    /// Whether this is the other version or a later one.
    pub fn is_at_least(self, other: Version) -> bool
        ensures { IsTrue result ↔ (version_number other ≤ version_number self) }
    {
        self >= other
    }

    // Whether the version with this number is none that is spoken.
    fn is_unsupported(number: u32) -> bool
        ensures { result ≡ is_unsupported number }
    {
        number < Version::minimum_supported_version().number()
            || Version::maximum_supported_version().number() < number
    }

    /// The version with this number, if it is spoken.
    pub fn spoken(number: u32) -> Option<Version>
        ensures { result ≡ version_spoken number }
    {
        if Version::is_unsupported(number) {
            None
        } else {
            Version::with_number(number)
        }
    }

    /// The earliest version that is spoken.
    pub fn minimum_supported_version() -> Version
        ensures { result ≡ oldest_version }
    {
        Version::V5
    }

    /// The latest version that is spoken.
    pub fn maximum_supported_version() -> Version
        ensures { result ≡ newest_version }
    {
        Version::V9
    }
}

/// Prints the content type.
impl fmt::Display for Version {
    ghost output = { λ version. Some (version_content_type version) };

    fn fmt<W: fmt::Write>(&self, f: &mut fmt::Formatter<W>) -> fmt::Result {
        f.write_str(self.content_type())
    }
}

// The version whose content type this is.
#[tactic(auto, unfolding(crate::specs::Version::version_with))]
fn version_in(text: &str) -> Option<Version>
    ensures { result ≡ version_with text.now }
{
    if Version::V1.has_content_type(text) {
        Some(Version::V1)
    } else if Version::V2.has_content_type(text) {
        Some(Version::V2)
    } else if Version::V3.has_content_type(text) {
        Some(Version::V3)
    } else if Version::V4.has_content_type(text) {
        Some(Version::V4)
    } else if Version::V5.has_content_type(text) {
        Some(Version::V5)
    } else if Version::V6.has_content_type(text) {
        Some(Version::V6)
    } else if Version::V7.has_content_type(text) {
        Some(Version::V7)
    } else if Version::V8.has_content_type(text) {
        Some(Version::V8)
    } else if Version::V9.has_content_type(text) {
        Some(Version::V9)
    } else {
        None
    }
}

// Whether the text begins as the content types of this protocol do.
#[tactic(auto, unfolding(crate::specs::Version::has_restate_prefix))]
fn has_restate_prefix(text: &[u8]) -> bool
    ensures { result ≡ has_restate_prefix text.now }
{
    text.starts_with(RESTATE_PREFIX)
}

/// The version whose content type the text is, to the letter. Another text is handed back.
impl TryFrom<ByteStr> for Version {
    type Error = ContentTypeError;

    ghost try_from_gives = { λ text read. read ≡ content_type_read text };

    fn try_from(text: ByteStr) -> Result<Version, ContentTypeError> {
        match version_in(text.as_str()) {
            Some(version) => Ok(version),
            None if has_restate_prefix(text.as_bytes().as_slice()) => {
                Err(ContentTypeError::RestateContentType(text))
            }
            None => Err(ContentTypeError::OtherContentType(text)),
        }
    }
}
