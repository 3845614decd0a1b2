// A store whose process ends and does not close its files.
ghost use Rattle.std.specs.Prelude.{IsTrue};
ghost use Rattle.sqlite_wal.specs.Reads.{AreClean};
ghost use Rattle.sqlite.specs.Files.{file_state};
ghost use Rattle.store_files.specs.LeftFiles.{AreLeftOpen, files_of};

use journal_store::Store;
use sqlite::{FileStore, Files};
use sqlite_disk::Disk;

/// Lets go of a store as the end of its process does: nothing is copied, and its two files come back as they stand. They hold tables
/// that a crash may leave of the store, whatever a crash leaves of them. Which accepted events such tables keep, the clauses on crashes
/// of the calls before tell, and `opened_files_last` where these name what was left first; `open_file` (`kept`) takes what is left.
pub fn leave_file<D: Disk + Drop>(store: Store<FileStore<D>>) -> Files<D>
    ensures left { AreClean D.Disk result.log result.db → AreLeftOpen D.Disk (file_state store.connection) result }
    // of an open one so do its own files, whatever letting go of it does to them
    ensures open { AreClean D.Disk result.log result.db → IsTrue (file_state store.connection).is_open → AreLeftOpen D.Disk (file_state store.connection) (files_of store.connection) }
{
    let connection = store.into_connection();
    let _ = connection.schema();
    connection.into_store().close()
}
