//! A store in a file, and one in memory.
ghost use Rattle.std.specs.Prelude.{◌≡◌, [], IfOk, codes};

use journal_store::Store;
use sqlite::Unknown;
pub use sqlite::{File, FileStore};
use std::rt::HostRuntime;
pub use store_files::{
    FileNotTaken, FoundFiles, MemoryFile, NotTaken, Reason, close_file, leave_file, let_go,
    open_file, open_in_memory, reason_of,
};

/// The store in the file at a path, or why it is not taken. No attempt is live. Where there is no file, one is made. One that is not taken
/// is let go of.
///
/// What the store stands for, `open_file` says, of whatever the file held.
pub fn open(rt: &HostRuntime, path: &str) -> Result<Store<FileStore<File>>, Reason>
    ensures none_live { IfOk result (λ store. store.live.attempts ≡ []) }
    ensures memory { path.now ≡ codes ":memory:" → IfOk result (λ store. ⊥) }
{
    let found = FoundFiles::at(rt, path);
    match open_file(rt, path, Unknown) {
        Ok(store) => Ok(store),
        Err(mut why) => {
            let reason = reason_of(rt, path, &mut why);
            let_go(rt, path, found, why);
            Err(reason)
        }
    }
}
