// A store whose file is closed.
ghost use Rattle.std.specs.Prelude.{◌≡◌, ◌⊎◌, true, List, IfErr, IfOk};
ghost use Rattle.sqlite_trees.specs.View.{IsClean};
ghost use Rattle.sqlite_wal.specs.Reads.{AreClean};
ghost use Rattle.sqlite_store.specs.FileStore.{view};
ghost use Rattle.sqlite.specs.Files.{file_state, FailsToClose, IsClosed};
ghost use Rattle.journal_model.specs.Event.{Event};
ghost use Rattle.journal_store.specs.StoreStanding.{Stands};
ghost use Rattle.store_files.specs.Files.{AreLeft};

use journal_store::Store;
use sqlite::{Error, ErrorCode, FileStore, Files};
use sqlite_disk::Disk;

/// Copies the log of a store's database into its file, and gives both back. All attempts are over. Where that fails, what is recorded
/// is in the two together, as before. A store is never inside a transaction, which is asked since no contract of it says so.
pub fn close_file<D: Disk + Drop>(
    store: Store<FileStore<D>>,
) -> Result<Files<D>, (Error, FileStore<D>)>
    ensures left { IfOk result (λ files. AreClean D.Disk files.log files.db → (events : List Event) → Stands events (file_state store.connection) store.live.attempts → AreLeft D.Disk events files) }
    ensures failed { IfErr result (λ e. IsClosed store.connection e.1) }
    ensures cause { IfErr result (λ e. IsClean (view e.1) → FailsToClose store.connection e.1 e.0 ⊎ ((file_state store.connection).in_transaction ≡ true)) }
{
    let connection = store.into_connection();
    if !connection.is_autocommit() {
        return Err((
            Error::SqliteFailure(ErrorCode::DatabaseBusy),
            connection.into_store(),
        ));
    }
    connection.close_files()
}
