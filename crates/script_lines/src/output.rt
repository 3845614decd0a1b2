//! Writing to a writer, and what it took where it failed.
ghost use Rattle.std.specs.Prelude.{◌≡◌, ◌<◌, ℕ, length, take, OnOk, IfErr};
ghost use Rattle.std.specs.Io.KnownBytes.{Appends, Keeps};
ghost use Rattle.script_lines.specs.Output.{EndsWith};

use crate::fault::ScriptFault;
use std::io::{ErrorKind, Write};

/// Writes all of a text. Where the writer fails, it has taken a part of it, and not the whole.
pub fn write_text<W: Write>(writer: &mut W, text: &[u8]) -> Result<(), ScriptFault>
    ensures ok { OnOk result (Appends (W.contents writer.old) (W.contents writer.new) text.now) }
    ensures err { IfErr result (λ fault. (fault ≡ ScriptFault.OutputUnwritable) × (taken : ℕ) × (taken < length text.now)
        × Appends (W.contents writer.old) (W.contents writer.new) (take taken text.now)) }
{
    let mut written = 0;
    for _ in 0..u64::MAX {
        if written == text.len() {
            return Ok(());
        }
        match writer.write(&text[written..]) {
            Ok(0) => return Err(ScriptFault::OutputUnwritable),
            Ok(count) => written += count,
            Err(error) if error.kind() == ErrorKind::Interrupted => {}
            Err(_) => return Err(ScriptFault::OutputUnwritable),
        }
    }
    if written == text.len() {
        Ok(())
    } else {
        Err(ScriptFault::OutputUnwritable)
    }
}

/// Lets a writer write what it has taken. Where it has failed already, that stays the fault.
pub fn finish<W: Write>(writer: &mut W, reached: Result<(), ScriptFault>) -> Result<(), ScriptFault>
    ensures ends { EndsWith reached result }
    ensures bytes { Keeps (W.contents writer.old) (W.contents writer.new) }
{
    if reached == Err(ScriptFault::OutputUnwritable) {
        return reached;
    }
    match writer.flush() {
        Ok(()) => reached,
        Err(_) => Err(ScriptFault::OutputUnwritable),
    }
}
