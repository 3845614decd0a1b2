// The log beside a file that is not taken. No clause says what stands at a path.

use crate::look::beside;
use crate::open::{FileNotTaken, NotTaken};
use sqlite::Start;
use std::fs::{File, OpenOptions};
use std::io::Read;
use std::os::unix::fs::FileExt;
use std::rt::HostRuntime;
use std::{fs, io};

/// A log that records something has a header, and that of a frame.
const LEAST_LOG_BYTES: u64 = 32 + 24;

/// How many zeros an opening may put behind a log, so that nothing behind its last commit counts.
const MOST_ZEROS: usize = 9;

/// How long the file at a path was, and the log beside it, before the file was opened.
#[derive(Clone, Copy, Debug)]
pub struct FoundFiles {
    /// 0 where there was none.
    bytes: u64,
    log_bytes: u64,
}

fn log_len(rt: &HostRuntime, path: &str) -> io::Result<u64> {
    let log = beside(rt, path, "-wal")?;
    Ok(fs::symlink_metadata(rt, log.as_str())?.len())
}

fn file_len(rt: &HostRuntime, path: &str) -> io::Result<u64> {
    Ok(fs::metadata(rt, path)?.len())
}

impl FoundFiles {
    /// What stands at a path that is to be opened.
    pub fn at(rt: &HostRuntime, path: &str) -> FoundFiles {
        FoundFiles {
            bytes: file_len(rt, path).unwrap_or(0),
            log_bytes: log_len(rt, path).unwrap_or(0),
        }
    }

    /// Whether the file was begun by no opening: it held something, and the log, which is written first, held nothing.
    fn was_begun_elsewhere(self) -> bool {
        self.bytes > 0 && self.log_bytes == 0
    }
}

/// Whether a file holds something. One that is being made is empty or begins with a zero, and its log tells how far that went.
fn holds_something(rt: &HostRuntime, path: &str) -> io::Result<bool> {
    let mut first = [0];
    let mut file = fs::open(rt, path)?;
    file.read_exact(&mut first)?;
    Ok(first != [0])
}

/// Whether a file ends in so many zeros, and nothing else, behind this place.
fn are_zeros_behind(file: &File, at: u64) -> io::Result<bool> {
    let mut rest = [1; MOST_ZEROS];
    let got = file.read_at(&mut rest, at)?;
    Ok(got == MOST_ZEROS && rest == [0; MOST_ZEROS])
}

/// Cuts off what an opening has put behind a log that was so long.
fn cut_zeros(rt: &HostRuntime, log: &str, bytes: u64) -> io::Result<()> {
    let file = OpenOptions::new().read(true).write(true).open(rt, log)?;
    if are_zeros_behind(&file, bytes)? {
        file.set_len(bytes)?;
    }
    Ok(())
}

/// Undoes what the opening of a file has made of the log beside it: removes one that records nothing, and cuts off the zeros that it has put
/// behind another.
fn restore_log(rt: &HostRuntime, path: &str, found: FoundFiles) -> io::Result<()> {
    let log = beside(rt, path, "-wal")?;
    let now = fs::symlink_metadata(rt, log.as_str())?;
    if !now.is_file() {
        return Ok(());
    }
    if now.len() >= LEAST_LOG_BYTES {
        if found.log_bytes.checked_add(MOST_ZEROS as u64) == Some(now.len()) {
            cut_zeros(rt, log.as_str(), found.log_bytes)?;
        }
        return Ok(());
    }
    if found.was_begun_elsewhere() || holds_something(rt, path)? {
        fs::remove_file(rt, log.as_str())?;
    }
    Ok(())
}

/// Lets go of a file that was not taken, of which this was found before it was opened, and leaves it as it was: it removes the log that its
/// opening has made beside it, and the zeros that it has put behind a log that was there. Both files are held until that is done, so nobody
/// writes to the log meanwhile. A log that was there before goes too, if it records nothing.
pub fn let_go<S: Start>(rt: &HostRuntime, path: &str, found: FoundFiles, why: FileNotTaken<S>) {
    let files = match why {
        NotTaken::Unopened(_, None) => return,
        NotTaken::Unopened(_, Some(left)) => left.into_files(),
        NotTaken::NoStore(left) => left.connection.into_store().close(),
    };
    // What the system does not undo, stays.
    let _ = restore_log(rt, path, found);
    drop(files);
}
