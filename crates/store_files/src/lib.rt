//! A store that is kept in a file, by the database's own files: the one at a path is opened, and in the end what was recorded is left
//! in that file alone. And one whose database lies in memory, and is let go of with it. And laws of what crashes leave of any store.
#![tactic(auto)]

mod beside;
mod close;
mod crashes;
mod laws;
mod leave;
mod look;
mod make;
mod memory;
mod open;
mod why;

pub use beside::{FoundFiles, let_go};
pub use close::close_file;
pub use crashes::{crashes_leave_events, images_are_stores};
pub use laws::opened_files_last;
pub use leave::leave_file;
pub use memory::{memory_stays_clean, open_in_memory};
pub use memory_disk::MemoryFile;
pub use open::{FileNotTaken, NotTaken, open_file};
pub use why::{Reason, reason_of};
