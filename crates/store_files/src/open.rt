// A store that is opened over the file at a path.
ghost use Rattle.std.specs.Prelude.{◌≡◌, [], List, Err, IfOk, IsErrAnd, codes};
ghost use Rattle.sqlite_wal.specs.Files.{image_at};
ghost use Rattle.sqlite.specs.State.{HasCleanDisk};
ghost use Rattle.sqlite.specs.Files.{file_state};
ghost use Rattle.sqlite.specs.declared.error.Error.{Error};
ghost use Rattle.sqlite.specs.declared.error.Error.TheVariants.{SqliteFailure};
ghost use Rattle.sqlite.specs.declared.error.ErrorCode.TheVariants.{CannotOpen};
ghost use Rattle.journal_model.specs.Event.{Event};
ghost use Rattle.journal_model.specs.Cause.{after_open};
ghost use Rattle.journal_store.specs.StoreStanding.{Stands};
ghost use Rattle.store_files.specs.Files.{IsNoFile, KeepsEvents};
ghost use Rattle.store_files.specs.RefusedFiles.{IsNoStore, IsUnopened};
ghost use Rattle.store_files.specs.TakenFiles.{IsOpenedOver, AreFilesTaken};
ghost use Rattle.store_files.specs.declared.open.NotTaken.TheVariants.{NoStore, Unopened};

use crate::look::is_refused_unopened;
use crate::make::make_file;
use journal_store::{NotOpened, Store};
use sqlite::{Connection, Error, ErrorCode, FileFrom, FileStore, Leftover, Start};
use std::rt::HostRuntime;

const CANNOT_OPEN: Error = Error::SqliteFailure(ErrorCode::CannotOpen);

/// Why the file at a path is not taken, with what is left: of the files, or of the connection that was opened over them.
#[derive(Drop)]
pub enum NotTaken<F, C> {
    /// The system refused the files, another process among its reasons, or they hold no database. The files come with it where the
    /// system gave them.
    Unopened(Error, Option<F>),
    /// The database is no store's, or no store could be opened over it.
    NoStore(C),
}

/// The same, of the files of a `Start`.
pub type FileNotTaken<S> = NotTaken<Leftover<FileFrom<S>>, NotOpened<FileStore<FileFrom<S>>>>;

/// The store in the file at a path. No attempt is live. Where there is none, an empty database is made first, with small pages. `S`
/// stands for what the file and its log held then; that they are those at the path is no clause.
pub fn open_file<S: Start>(
    rt: &HostRuntime,
    path: &str,
    start: S,
) -> Result<Store<FileStore<FileFrom<S>>>, FileNotTaken<S>>
    ensures none { IfOk result (λ store. HasCleanDisk (file_state store.connection) → IsNoFile (image_at S.Start) → Stands [] (file_state store.connection) store.live.attempts) }
    ensures kept { IfOk result (λ store. HasCleanDisk (file_state store.connection) → (events : List Event) → KeepsEvents events (image_at S.Start) → Stands (after_open events) (file_state store.connection) store.live.attempts) }
    ensures taken { IfOk result (λ store. HasCleanDisk (file_state store.connection) → AreFilesTaken (image_at S.Start) (file_state store.connection) store.live.attempts) }
    ensures crash { IfOk result (λ store. IsOpenedOver (image_at S.Start) store.connection) }
    ensures memory { path.now ≡ codes ":memory:" → IsErrAnd result (λ why. (left : _) × (why ≡ Unopened (SqliteFailure CannotOpen) left)) }
    ensures none_live { IfOk result (λ store. store.live.attempts ≡ []) }
    ensures unopened { (error : Error) (left : _) → result ≡ Err (Unopened error left) → IsUnopened (image_at S.Start) error left }
    ensures no_store { (left : _) → result ≡ Err (NoStore left) → IsNoStore (image_at S.Start) left.connection left.refusal }
{
    if is_refused_unopened(rt, path) {
        return Err(NotTaken::Unopened(CANNOT_OPEN, None));
    }
    if let Err(error) = make_file(rt, path) {
        return Err(NotTaken::Unopened(error, None));
    }
    let connection = match Connection::open_from(rt, path, false, start) {
        Ok(connection) => connection,
        Err((error, left)) => return Err(NotTaken::Unopened(error, left)),
    };
    match Store::open(rt.alloc(), connection) {
        Ok(store) => Ok(store),
        Err(left) => Err(NotTaken::NoStore(left)),
    }
}
