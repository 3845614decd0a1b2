// The error of a refused call.
ghost use Rattle.std.specs.Fmt.{WritesOnOk};
ghost use Rattle.protocol_types.specs.Feature.{first_version};
ghost use Rattle.protocol_errors.specs.Texts.{feature_text, out_of_bounds_text};
ghost use Rattle.vm_refusals.specs.Refusals.{text_of_refusal};

use crate::CallRefusal;
use protocol_errors::{
    EMPTY_IDEMPOTENCY_KEY, EMPTY_LIMIT_KEY, EMPTY_SCOPE, InvocationErrorCode,
    UnsupportedFeatureForNegotiatedVersion, WithInvocationErrorCode,
};
use protocol_types::{Feature, Version};
use std::fmt;

/// The error of a refused call.
#[derive(Debug, Drop)]
pub struct RefusalError {
    pub refusal: CallRefusal,
    /// The version that is spoken.
    pub version: Version,
    /// What the moment is called, where it is out of bounds: `sleep duration` or `send delay`.
    pub event: &'static str,
}

// Writes that something of this name came with a feature of a later version.
fn write_lack<W: fmt::Write>(
    name: &'static str,
    version: Version,
    feature: Feature,
    f: &mut fmt::Formatter<W>,
) -> fmt::Result
    ensures { WritesOnOk W.write_str_gives f.old result (feature_text name.now version (first_version feature)) f.new }
{
    let minimum = feature.first_version();
    let lack = UnsupportedFeatureForNegotiatedVersion::new(name, version, minimum);
    fmt::Display::fmt(&lack, f)
}

// Writes that a moment is past the milliseconds that 64 bits hold.
fn write_out_of_bounds<W: fmt::Write>(event: &str, f: &mut fmt::Formatter<W>) -> fmt::Result
    ensures { WritesOnOk W.write_str_gives f.old result (out_of_bounds_text event.now) f.new }
{
    write!(
        f,
        "Duration for '{event}' is out of bounds: out of range integral type conversion attempted"
    )
}

// Writes the text of a refusal.
fn write_refusal<W: fmt::Write>(
    refusal: CallRefusal,
    version: Version,
    event: &str,
    f: &mut fmt::Formatter<W>,
) -> fmt::Result
    ensures { WritesOnOk W.write_str_gives f.old result (text_of_refusal refusal version event.now) f.new }
{
    match refusal {
        CallRefusal::EmptyIdempotencyKey => f.write_str(EMPTY_IDEMPOTENCY_KEY.message()),
        CallRefusal::EmptyScope => f.write_str(EMPTY_SCOPE.message()),
        CallRefusal::EmptyLimitKey => f.write_str(EMPTY_LIMIT_KEY.message()),
        CallRefusal::UnsupportedScope => write_lack("scope", version, Feature::Scope, f),
        CallRefusal::UnsupportedLimitKey => write_lack("limit key", version, Feature::Scope, f),
        CallRefusal::UnsupportedFailureMetadata => write_lack(
            "terminal error metadata",
            version,
            Feature::FailureMetadata,
            f,
        ),
        CallRefusal::UnsupportedAtLeast => write_lack("at least", version, Feature::AtLeast, f),
        CallRefusal::AwaitTooDeep => f.write_str("what is awaited is nested too deep to be told"),
        CallRefusal::OutOfBoundsDuration => write_out_of_bounds(event, f),
    }
}

/// Prints what the error of `protocol_errors` prints that has the refusal's name.
impl fmt::Display for RefusalError {
    ghost use Rattle.std.specs.Prelude.{Some};
    ghost use Rattle.vm_refusals.specs.Refusals.{refusal_text};

    ghost output = { λ error. Some (refusal_text error) };

    fn fmt<W: fmt::Write>(&self, f: &mut fmt::Formatter<W>) -> fmt::Result {
        write_refusal(self.refusal, self.version, self.event, f)
    }
}

impl std::error::Error for RefusalError {}

/// The code of its refusal.
impl WithInvocationErrorCode for RefusalError {
    ghost use Rattle.vm_refusals.specs.Refusals.{refusal_code};

    ghost code_of = { λ error. refusal_code error.refusal };

    fn code(&self) -> InvocationErrorCode {
        self.refusal.code()
    }
}
