// Why an ephemeral read is not made.
ghost use Rattle.std.specs.Prelude.{◌≡◌, Some};
ghost use Rattle.vm_feeding.specs.Refusals.{lacks_reads, refusal_code, refusal_text};

use protocol_errors::{
    EphemeralStateGetWithClosedInput, InvocationErrorCode, UnsupportedFeatureForNegotiatedVersion,
    WithInvocationErrorCode, codes,
};
use protocol_types::{Feature, Version};
use std::fmt;

/// Whether the version is one before ephemeral reads.
pub(crate) fn lacks_reads(version: Version) -> bool
    ensures { result ≡ lacks_reads version }
{
    Feature::EphemeralState.is_later_than(version.number())
}

/// Why an ephemeral read is not made. It prints what the error of its kind prints.
#[derive(Debug, Drop)]
pub(crate) enum ReadRefusal {
    /// The version that is spoken has none.
    Unsupported(Version),
    /// The key has to be asked for, and no answer can come.
    InputClosed(EphemeralStateGetWithClosedInput),
}

impl fmt::Display for ReadRefusal {
    ghost output = { λ refusal. Some (refusal_text refusal) };

    fn fmt<W: fmt::Write>(&self, f: &mut fmt::Formatter<W>) -> fmt::Result {
        match self {
            ReadRefusal::Unsupported(version) => {
                let minimum = Feature::EphemeralState.first_version();
                let lack = UnsupportedFeatureForNegotiatedVersion::new(
                    "ephemeral state get",
                    *version,
                    minimum,
                );
                fmt::Display::fmt(&lack, f)
            }
            ReadRefusal::InputClosed(error) => fmt::Display::fmt(error, f),
        }
    }
}

/// A version without ephemeral reads does not support them; that no answer can come is internal.
impl WithInvocationErrorCode for ReadRefusal {
    ghost code_of = { refusal_code };

    fn code(&self) -> InvocationErrorCode {
        match self {
            ReadRefusal::Unsupported(_) => codes::UNSUPPORTED_FEATURE,
            ReadRefusal::InputClosed(error) => error.code(),
        }
    }
}
