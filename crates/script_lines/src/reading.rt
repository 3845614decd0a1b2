//! Reading a whole script.

ghost use Rattle.std.specs.Prelude.{◌≡◌, ◌≤◌, ◌+◌, IfOk, OnOk, IfSome, length};
ghost use Rattle.std.specs.Io.KnownBytes.{IsAtEnd};

use std::alloc::{AllocError, Global};
use std::io::{ErrorKind, Read};

/// The most reads that a script takes, the one that finds its end among them.
pub const READ_LIMIT: u32 = 16_777_216;

/// The most bytes that a script has.
pub const SCRIPT_LIMIT: usize = 16_777_216;

/// The script cannot be read: the reader failed, didn't end within the limits, or memory ran out.
#[derive(Drop)]
pub struct UnreadableScript;

impl From<AllocError> for UnreadableScript {
    fn from(_error: AllocError) -> UnreadableScript {
        UnreadableScript
    }
}

/// All bytes of a reader, up to its end.
pub fn read_script<R: Read>(alloc: Global, reader: &mut R) -> Result<Vec<u8>, UnreadableScript>
    // Where the reader tells its bytes, these are the script.
    ensures bytes { IfOk result (λ script. IfSome (R.remaining reader.old) (λ bytes. script.items ≡ bytes)) }
    ensures end { OnOk result (IsAtEnd (R.remaining reader.new)) }
    ensures limit { IfOk result (λ script. length script.items ≤ SCRIPT_LIMIT) }
{
    let mut script = Vec::new(alloc);
    let mut buffer = [0u8; 4096];
    for _ in 0..READ_LIMIT {
        let count = match reader.read(&mut buffer) {
            Ok(count) => count,
            Err(error) if error.kind() == ErrorKind::Interrupted => continue,
            Err(_) => return Err(UnreadableScript),
        };
        if count == 0 {
            return Ok(script);
        }
        if count > SCRIPT_LIMIT - script.len() {
            return Err(UnreadableScript);
        }
        script.extend_from_slice(&buffer[..count])?;
    }
    Err(UnreadableScript)
}
