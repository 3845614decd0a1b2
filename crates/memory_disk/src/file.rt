// A file in memory. It is one list of bytes: what was written is what is read, and a sync has nothing to do.
ghost use Rattle.std.specs.Prelude.{◌≡◌, [], length, true, false, refl, is_ok, OnOk};
ghost use Rattle.sqlite_disk.specs.Disk.{Holds, Torn, Cut, CountsFault};
ghost use Rattle.sqlite_disk.specs.Refusal.{finds_no_room};

use sqlite_disk::{Disk, Tally};
use std::alloc::{AllocError, Global};
use std::io;

/// A file that is as long as its bytes. It is let go of with the process, so nobody reads what a crash leaves of it: what is said of
/// a crash is that nothing which was written is lost.
#[derive(Drop)]
pub struct MemoryFile {
    bytes: Vec<u8>,
    /// How many calls found no memory.
    faults: u64,
}

impl MemoryFile {
    ghost use Rattle.memory_disk.specs.File.{file_bytes};

    /// The file of no bytes.
    pub fn new(alloc: Global) -> MemoryFile
        ensures { file_bytes result ≡ [] }
    {
        MemoryFile {
            bytes: Vec::new(alloc),
            faults: 0,
        }
    }
}

impl Disk for MemoryFile {
    ghost seen = { λ file. file.bytes.items };

    ghost may_leave = { λ file left. left ≡ file.bytes.items };

    ghost is_usable = { λ _. true };

    ghost faults = { λ file. file.faults };

    ghost is_clean = { λ _. true };

    ghost tally_of = { λ _. record { caught = 0; refused = 0 } };

    ghost key_of = { λ _. 0 };

    ghost is_fair = { λ _ _. true };

    ghost fair_if_clean = { λ _ _ _. refl };

    ghost seen_may_stay = { λ _. refl };

    fn mixes(&self) -> bool {
        false
    }

    fn key(&self) -> u64 {
        0
    }

    fn tally(&self) -> Tally {
        Tally {
            caught: 0,
            refused: 0,
        }
    }

    fn may_be_used(&self) -> bool {
        true
    }

    fn len(&mut self) -> io::Result<usize> {
        Ok(self.bytes.len())
    }

    fn read_at(&mut self, at: usize, buf: &mut [u8]) -> io::Result<()> {
        let len = self.bytes.len();
        if at > len || buf.len() > len - at {
            return Err(io::ErrorKind::UnexpectedEof.into());
        }
        buf.copy_from_slice(&self.bytes[at..at + buf.len()]);
        Ok(())
    }

    // What is read is what was written, so it has the digest that the caller kept, and is not tested.
    fn read_checked(&mut self, _key: u64, _want: u64, at: usize, buf: &mut [u8]) -> io::Result<()> {
        self.read_at(at, buf)
    }

    fn write_at(&mut self, at: usize, bytes: &[u8]) -> io::Result<()> {
        let written = put(&mut self.bytes, at, bytes);
        count(written, &mut self.faults)
    }

    fn set_len(&mut self, len: usize) -> io::Result<()> {
        let cut = resize(&mut self.bytes, len);
        count(cut, &mut self.faults)
    }

    fn sync(&mut self) -> io::Result<()> {
        Ok(())
    }
}

/// A call that found no memory is a fault.
fn count(outcome: Result<(), AllocError>, faults: &mut u64) -> io::Result<()>
    ensures same { is_ok result ≡ is_ok outcome }
    ensures kind { finds_no_room result ≡ false }
    ensures faults { CountsFault result faults.old faults.new }
{
    match outcome {
        Ok(()) => Ok(()),
        Err(AllocError) => {
            *faults = faults.saturating_add(1);
            Err(io::ErrorKind::OutOfMemory.into())
        }
    }
}

/// Cuts the file, or puts zeros behind it. Where there is no memory it stays.
fn resize(file: &mut Vec<u8>, len: usize) -> Result<(), AllocError>
    ensures len { OnOk result (length file.new.items ≡ len) }
    ensures others { Cut len file.old.items file.new.items }
{
    file.resize(len, 0)
}

/// Writes the bytes over what is there, and behind it. Where there is no memory for those behind, the file stays.
fn put(file: &mut Vec<u8>, at: usize, bytes: &[u8]) -> Result<(), AllocError>
    ensures written { OnOk result (Holds file.new.items at bytes.now) }
    ensures others { Torn at (length bytes.now) file.old.items file.new.items }
{
    if at == file.len() {
        return file.extend_from_slice(bytes);
    }
    let end = at.checked_add(bytes.len()).ok_or(AllocError)?;
    if end > file.len() {
        resize(file, end)?;
    }
    file[at..end].copy_from_slice(bytes);
    Ok(())
}
