// An empty database, which a new file is given before it is opened.
ghost use Rattle.std.specs.Prelude.{◌≡◌, ◌⊎◌, Ok, IfErr, IsTrue, codes};
ghost use Rattle.sqlite_wal.specs.Recovery.{Image};
ghost use Rattle.sqlite_wal.specs.Reads.{AreClean};
ghost use Rattle.sqlite_wal.specs.Files.{outcomes};
ghost use Rattle.sqlite_pool.specs.Opening.{IsBlankFile};
ghost use Rattle.sqlite.specs.Files.{image_of};
ghost use Rattle.sqlite.specs.declared.error.Error.TheVariants.{SqliteFailure};
ghost use Rattle.sqlite.specs.declared.error.ErrorCode.TheVariants.{CannotOpen, OutOfMemory};

use sqlite::{Error, ErrorCode, Files, Options, Unknown};
use sqlite_disk::Disk;
use sqlite_pager::Pager;
use sqlite_pool::probe_blank;
use sqlite_store::{OpenError, Unopened};
use sqlite_wal::PageSize;
use std::alloc::{AllocError, AllocFailed, Global};
use std::hash::{BuildHasher, RandomState};
use std::rt::HostRuntime;
use std::{fs, io};

/// How many bytes a page of a new database has. A commit writes the pages that it changes, and a page costs by its bytes.
pub(crate) const PAGE_BYTES: usize = 1024;

/// Whether memory was refused. What else stands in the way is told when the files are opened.
fn refused_memory(error: OpenError) -> Result<(), AllocError> {
    match error {
        OpenError::OutOfMemory => Err(AllocError),
        OpenError::Io | OpenError::Full | OpenError::Refused => Ok(()),
    }
}

/// An empty database in these files, as far as it can be made, and whether memory was refused for it.
fn with_database<D: Disk>(
    alloc: Global,
    files: Files<D>,
    size: PageSize,
    options: Options,
) -> (Files<D>, Result<(), AllocError>)
    requires log { IsTrue (D.Disk.is_usable files.log) }
    requires db { IsTrue (D.Disk.is_usable files.db) }
    ensures honest { AreClean D.Disk result.0.log result.0.db → AreClean D.Disk files.log files.db }
{
    let pager = match Pager::new(alloc, files, size, options) {
        Ok(pager) => pager,
        Err(AllocFailed { value }) => return (value, Err(AllocError)),
    };
    let files = match Unopened::with_sums(alloc, pager, &[], false) {
        Ok(files) => files,
        Err(AllocFailed { value }) => return (value.close(), Err(AllocError)),
    };
    match files.create() {
        Ok(store) => (store.close(), Ok(())),
        Err((error, left)) => (left.close(), refused_memory(error)),
    }
}

/// An empty database in two files where none was made yet, or was half made, and whether memory was refused for it. Files that hold anything
/// else are left as they are.
fn begun<D: Disk>(
    alloc: Global,
    mut files: Files<D>,
    options: Options,
) -> (Files<D>, Result<(), AllocError>)
    requires log { IsTrue (D.Disk.is_usable files.log) }
    requires db { IsTrue (D.Disk.is_usable files.db) }
    ensures spared { AreClean D.Disk result.0.log result.0.db → ¬ IsBlankFile 1024 (image_of D.Disk files) → (image : Image) → outcomes D.Disk result.0.log result.0.db image → outcomes D.Disk files.log files.db image }
{
    let size = PageSize::new(PAGE_BYTES).unwrap();
    let is_blank = match probe_blank(alloc, &mut files, size, false) {
        Ok(is_blank) => is_blank,
        Err(sqlite_wal::Error::OutOfMemory) => return (files, Err(AllocError)),
        Err(_) => return (files, Ok(())),
    };
    if !is_blank {
        return (files, Ok(()));
    }
    with_database(alloc, files, size, options)
}

/// Whether there may be no database at a path yet: there is no file, or none that is longer than a page.
fn may_be_blank(rt: &HostRuntime, path: &str) -> bool {
    match fs::metadata(rt, path) {
        Ok(found) => found.len() <= PAGE_BYTES as u64,
        Err(_) => true,
    }
}

/// Makes an empty database in the file at a path, where there is none. Where memory is refused for that, the library would make one with
/// larger pages, and the file would keep them: so that is told. What else stands in the way is told when the file is opened.
pub(crate) fn make_file(rt: &HostRuntime, path: &str) -> Result<(), Error>
    ensures why { IfErr result (λ error. (error ≡ SqliteFailure CannotOpen) ⊎ (error ≡ SqliteFailure OutOfMemory)) }
    ensures memory { path.now ≡ codes ":memory:" → result ≡ Ok tt }
{
    if path == ":memory:" || path.starts_with("file:") || !may_be_blank(rt, path) {
        return Ok(());
    }
    let Ok(state) = RandomState::new(rt) else {
        return Err(Error::SqliteFailure(ErrorCode::CannotOpen));
    };
    let options = Options::new(state.hash_one(&0u8));
    let files = match sqlite_std_file::open(rt, path, Unknown) {
        Ok(files) => files,
        Err(sqlite_std_file::OpenError::OutOfMemory) => {
            return Err(Error::SqliteFailure(ErrorCode::OutOfMemory));
        }
        Err(sqlite_std_file::OpenError::Io(error)) if error.kind() == io::ErrorKind::OutOfMemory =>
            {
                return Err(Error::SqliteFailure(ErrorCode::OutOfMemory));
            }
        Err(_) => return Ok(()),
    };
    let (files, made) = begun(rt.alloc(), files, options);
    drop(files);
    match made {
        Ok(()) => Ok(()),
        Err(AllocError) => Err(Error::SqliteFailure(ErrorCode::OutOfMemory)),
    }
}
