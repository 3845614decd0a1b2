//! A file that lies in memory, as a database sees it.
#![tactic(auto)]

mod file;

pub use file::MemoryFile;
