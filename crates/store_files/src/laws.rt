//! Laws of a store that was opened over files. The function does nothing: its contract is the law.
ghost use Rattle.store_files.specs.LeftFiles.{BareStandForNone, OpenedKeep, OpenedKeepNone};

use sqlite_disk::Disk;

/// What a crash leaves of a store that was just opened over files keeps what these kept, and where they kept no table, such a store
/// stands for no events. That it was, `crash` and `taken` of `open_file` tell.
pub fn opened_files_last<D: Disk>()
    ensures kept { OpenedKeep D.Disk }
    ensures none { OpenedKeepNone D.Disk }
    ensures bare { BareStandForNone D.Disk }
{}
