// The version that an attempt speaks.
ghost use Rattle.std.specs.Prelude.{◌≡◌, ◌∷◌, [], IfOk};
ghost use Rattle.protocol_types.specs.Version.{version_content_type};
ghost use Rattle.std.specs.Fmt.{WritesOnOk};
ghost use Rattle.vm_start.specs.Negotiation.{content_type, Negotiates, Speaks, negotiation_code, unsupported_version_text, restate_content_type_text, other_content_type_text, content_type_text, negotiation_text};
ghost use Rattle.vm_start.specs.declared.negotiation.NegotiationError.TheVariants.{OutOfMemory};

use bytes::ByteStr;
use journal_model::Header;
use protocol_errors::{InvocationErrorCode, MISSING_CONTENT_TYPE, WithInvocationErrorCode, codes};
use protocol_stream::{ContentTypeError, HeaderMap, Version};
use sequence::Sequence;
use std::alloc::{AllocError, Global};
use std::fmt;
use vm_types::ResponseHead;

/// The header that says which version a request is in.
const CONTENT_TYPE: &str = "content-type";

/// Why no attempt is begun for a request. Of several that hold, the first is told.
#[derive(Debug, Drop)]
pub enum NegotiationError<E> {
    /// The header cannot be read as text.
    UnreadableHeader(E),
    /// The request has no content type.
    MissingContentType,
    /// The content type names no version of the protocol.
    UnknownContentType(ContentTypeError),
    /// The version is none that is spoken.
    UnsupportedVersion(Version),
    /// Memory was refused.
    OutOfMemory,
}

impl<E> From<AllocError> for NegotiationError<E> {
    ghost from_gives = { λ _ error. error ≡ OutOfMemory };

    fn from(_refused: AllocError) -> NegotiationError<E> {
        NegotiationError::OutOfMemory
    }
}

// Writes that the version is none from the oldest to the newest.
#[tactic(auto, unfolding(crate::specs::Negotiation::unsupported_version_text))]
fn write_unsupported_version<W: fmt::Write>(
    version: Version,
    oldest: Version,
    newest: Version,
    f: &mut fmt::Formatter<W>,
) -> fmt::Result
    ensures { WritesOnOk W.write_str_gives f.old result (unsupported_version_text version oldest newest) f.new }
{
    let version = version.name();
    let oldest = oldest.name();
    let newest = newest.name();
    write!(
        f,
        "Unsupported protocol version {version}, not within [{oldest} to {newest}]"
    )
}

// Writes that the content type is one of this protocol's, of no version.
#[tactic(auto, unfolding(crate::specs::Negotiation::restate_content_type_text))]
fn write_restate_content_type<W: fmt::Write>(text: &str, f: &mut fmt::Formatter<W>) -> fmt::Result
    ensures { WritesOnOk W.write_str_gives f.old result (restate_content_type_text text.now) f.new }
{
    write!(f, "unsupported protocol version '{text}'")
}

// Writes that the content type is of something else.
#[tactic(auto, unfolding(crate::specs::Negotiation::other_content_type_text))]
fn write_other_content_type<W: fmt::Write>(text: &str, f: &mut fmt::Formatter<W>) -> fmt::Result
    ensures { WritesOnOk W.write_str_gives f.old result (other_content_type_text text.now) f.new }
{
    write!(
        f,
        "unrecognized content-type '{text}', this is not a restate protocol"
    )
}

// Writes what the error's own `Display` writes, of which no contract tells the text.
fn write_content_type_error<W: fmt::Write>(
    error: &ContentTypeError,
    f: &mut fmt::Formatter<W>,
) -> fmt::Result
    ensures { WritesOnOk W.write_str_gives f.old result (content_type_text error.now) f.new }
{
    match error {
        ContentTypeError::RestateContentType(text) => write_restate_content_type(text.as_str(), f),
        ContentTypeError::OtherContentType(text) => write_other_content_type(text.as_str(), f),
    }
}

/// Prints what is wrong with the request.
impl<E: fmt::Debug> fmt::Display for NegotiationError<E> {
    ghost output = { λ error. negotiation_text error };

    fn fmt<W: fmt::Write>(&self, f: &mut fmt::Formatter<W>) -> fmt::Result {
        match self {
            NegotiationError::UnreadableHeader(error) => {
                write!(f, "cannot read '{CONTENT_TYPE}' header: {error:?}")
            }
            NegotiationError::MissingContentType => write!(f, "{MISSING_CONTENT_TYPE}"),
            NegotiationError::UnknownContentType(error) => write_content_type_error(error, f),
            NegotiationError::UnsupportedVersion(version) => write_unsupported_version(
                *version,
                Version::minimum_supported_version(),
                Version::maximum_supported_version(),
                f,
            ),
            NegotiationError::OutOfMemory => write!(f, "out of memory"),
        }
    }
}

impl<E: fmt::Debug + Drop> std::error::Error for NegotiationError<E> {}

/// A header that cannot be read makes a bad request, want of memory is internal; anything else is a media type that is not supported.
impl<E> WithInvocationErrorCode for NegotiationError<E> {
    ghost code_of = { λ error. negotiation_code error };

    fn code(&self) -> InvocationErrorCode {
        match self {
            NegotiationError::UnreadableHeader(_) => codes::BAD_REQUEST,
            NegotiationError::MissingContentType
            | NegotiationError::UnknownContentType(_)
            | NegotiationError::UnsupportedVersion(_) => codes::UNSUPPORTED_MEDIA_TYPE,
            NegotiationError::OutOfMemory => codes::INTERNAL,
        }
    }
}

// The version of a content type, if it is spoken.
fn spoken_in<E>(text: ByteStr) -> Result<Version, NegotiationError<E>>
    ensures { Speaks text result }
{
    match Version::try_from(text) {
        Err(error) => Err(NegotiationError::UnknownContentType(error)),
        Ok(version) => match Version::spoken(version.number()) {
            Some(version) => Ok(version),
            None => Err(NegotiationError::UnsupportedVersion(version)),
        },
    }
}

/// The version that the content type of a request names, where it is spoken.
pub fn negotiate<H: HeaderMap>(
    alloc: Global,
    headers: &H,
) -> Result<Version, NegotiationError<H::Error>>
    ensures { Negotiates (H.fails headers.now content_type) (H.text_of headers.now content_type) result }
{
    match headers.extract(CONTENT_TYPE) {
        Err(error) => Err(NegotiationError::UnreadableHeader(error)),
        Ok(None) => Err(NegotiationError::MissingContentType),
        Ok(Some(text)) => spoken_in(ByteStr::copy_from_str(alloc, text)?),
    }
}

/// How the response to a request in this version begins.
pub fn response_head(alloc: Global, version: Version) -> Result<ResponseHead, AllocError>
    ensures { IfOk result (λ head. head ≡ record {
      status_code = 200;
      headers = record { key = content_type; value = version_content_type version } ∷ [];
      version = version;
    }) }
{
    let mut headers = Sequence::new(alloc);
    headers.push(Header {
        key: ByteStr::from_static(CONTENT_TYPE),
        value: ByteStr::from_static(version.content_type()),
    })?;
    Ok(ResponseHead {
        status_code: 200,
        headers,
        version,
    })
}
