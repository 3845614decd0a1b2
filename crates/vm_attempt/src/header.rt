// The header by which a machine is told which version it speaks.
ghost use Rattle.std.specs.Prelude.{Some};
ghost use Rattle.protocol_types.specs.Version.{version_content_type};

use protocol_stream::HeaderMap;
use protocol_types::Version;
use std::convert::Infallible;

/// Headers that tell a version, whatever header is asked for.
#[derive(Drop)]
pub(crate) struct ContentType(pub Version);

impl HeaderMap for ContentType {
    type Error = Infallible;

    ghost text_of = { λ header name. Some (version_content_type header.0) };

    ghost fails = { λ header name error. ⊥ };

    fn extract(&self, _name: &str) -> Result<Option<&str>, Infallible> {
        Ok(Some(self.0.content_type()))
    }
}
