// What the system shows of a path, and of the files beside it. Nothing is proved of what that is.
ghost use Rattle.std.specs.Prelude.{◌≡◌, ◌⊎◌, IsTrue};
ghost use Rattle.store_files.specs.RefusalReasons.{is_seen};
ghost use Rattle.store_files.specs.declared.why.Reason.TheVariants as reason;

use crate::why::Reason;
use std::fs::OpenOptions;
use std::io::{ErrorKind, Read};
use std::os::unix::fs::{FileExt, MetadataExt};
use std::rt::HostRuntime;
use std::{fs, io};

/// A database has a page at least, and a page at least so many bytes.
const LEAST_BYTES: u64 = 512;

/// The place in a database's header of its greatest root, which it names for `auto_vacuum` alone.
const GREATEST_ROOT: u64 = 52;

/// The name beside that of the file to which a path leads, links followed.
pub(crate) fn beside(rt: &HostRuntime, path: &str, ending: &str) -> io::Result<String> {
    let real = fs::canonicalize(rt, path)?;
    Ok(format!(in rt.alloc(); "{}{ending}", real.as_str())?)
}

/// How many bytes the file beside has, if there is one.
fn bytes_beside(rt: &HostRuntime, path: &str, ending: &str) -> io::Result<u64> {
    let name = beside(rt, path, ending)?;
    Ok(fs::symlink_metadata(rt, name.as_str())?.len())
}

/// Whether a file beside holds something.
fn holds_beside(rt: &HostRuntime, path: &str, ending: &str) -> bool {
    match bytes_beside(rt, path, ending) {
        Ok(len) => len > 0,
        Err(_) => false,
    }
}

fn is_too_short(found: &fs::Metadata) -> bool {
    found.is_file() && found.len() > 0 && found.len() < LEAST_BYTES
}

/// Whether the journal of a new file would have a name that is too long. The library looks for one.
fn names_no_journal(rt: &HostRuntime, path: &str) -> io::Result<bool> {
    let journal = format!(in rt.alloc(); "{path}-journal")?;
    match fs::symlink_metadata(rt, journal.as_str()) {
        Ok(_) => Ok(false),
        Err(error) => Ok(error.kind() == ErrorKind::InvalidFilename),
    }
}

/// Whether it shows before a file is opened that it will not be taken, so that nothing is made. One that is shorter than any database
/// was not begun by the library where it has no log, which is written first. A new one under too long a name is not begun.
pub(crate) fn is_refused_unopened(rt: &HostRuntime, path: &str) -> bool {
    match fs::metadata(rt, path) {
        Ok(found) => is_too_short(&found) && !holds_beside(rt, path, "-wal"),
        Err(_) => names_no_journal(rt, path).unwrap_or(false),
    }
}

fn by_kind(kind: ErrorKind) -> Reason
    ensures { IsTrue (is_seen result) }
{
    match kind {
        ErrorKind::PermissionDenied => Reason::NotPermitted,
        ErrorKind::NotFound => Reason::NotFound,
        _ => Reason::NotGiven,
    }
}

/// Why the system does not give a file that is there, as far as it shows.
fn by_what_is_there(rt: &HostRuntime, path: &str, found: &fs::Metadata) -> Reason
    ensures { IsTrue (is_seen result) }
{
    if !found.is_file() {
        return Reason::NotRegular;
    }
    if found.nlink() > 1 {
        return Reason::SecondName;
    }
    if is_too_short(found) {
        return Reason::NoDatabase;
    }
    if holds_beside(rt, path, "-journal") {
        return Reason::HasJournal;
    }
    match OpenOptions::new().read(true).write(true).open(rt, path) {
        Ok(_) => Reason::NotGiven,
        Err(error) => by_kind(error.kind()),
    }
}

/// Why the system does not give the file at a path, as far as it shows what stands there.
pub(crate) fn seen_at(rt: &HostRuntime, path: &str) -> Reason
    ensures { IsTrue (is_seen result) }
{
    match fs::metadata(rt, path) {
        Ok(found) => by_what_is_there(rt, path, &found),
        Err(error) => by_kind(error.kind()),
    }
}

/// Whether the file at a path begins as a database does.
fn begins_well(rt: &HostRuntime, path: &str) -> io::Result<bool> {
    let mut first = [0; 16];
    let mut file = fs::open(rt, path)?;
    file.read_exact(&mut first)?;
    Ok(first == *b"SQLite format 3\0")
}

/// Whether the database at a path keeps track of its pages for `auto_vacuum`.
fn has_auto_vacuum(rt: &HostRuntime, path: &str) -> io::Result<bool> {
    let mut root = [0; 4];
    let file = fs::open(rt, path)?;
    Ok(file.read_at(&mut root, GREATEST_ROOT)? == 4 && root != [0; 4])
}

/// What a file holds in which no database is read: none, one of a kind that is not read, or a damaged one.
pub(crate) fn kind_at(rt: &HostRuntime, path: &str) -> Reason
    ensures { (result ≡ reason.NoDatabase) ⊎ ((result ≡ reason.AutoVacuum) ⊎ (result ≡ reason.Damaged)) }
{
    if !begins_well(rt, path).unwrap_or(false) {
        return Reason::NoDatabase;
    }
    if has_auto_vacuum(rt, path).unwrap_or(false) {
        return Reason::AutoVacuum;
    }
    Reason::Damaged
}

/// What a file holds of whose pages the library says that they are damaged: it says so of a database with `auto_vacuum` too.
pub(crate) fn damage_at(rt: &HostRuntime, path: &str) -> Reason
    ensures { (result ≡ reason.AutoVacuum) ⊎ (result ≡ reason.Damaged) }
{
    match kind_at(rt, path) {
        Reason::AutoVacuum => Reason::AutoVacuum,
        _ => Reason::Damaged,
    }
}
