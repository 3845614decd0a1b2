// Why a call of C is not done.
use std::alloc::AllocError;

/// Why an argument was not read.
#[derive(Debug, Clone, Copy, PartialEq, Eq)]
pub enum Unread {
    /// Memory was refused.
    Memory,
    /// What has to be a text is not UTF-8, or what has to be a record, a tree or a policy is none; a tree that is nested deeper than
    /// `NODE_LEVELS` is none.
    Malformed,
}

/// Why a call is not done, or not answered.
#[derive(Debug, Clone, Copy, PartialEq, Eq)]
pub enum NotDone {
    /// Its arguments were not read; the machine is as it was.
    Unread(Unread),
    /// The machine has failed, or its attempt is suspended.
    Failed { is_suspended: bool },
    /// It was done, and memory was refused for its reply, which is lost.
    Untold,
}

impl From<Unread> for NotDone {
    ghost use Rattle.std.specs.Prelude.{◌≡◌};
    ghost use Rattle.vm_c_values.specs.declared.not_done.NotDone.TheVariants.{Unread};

    ghost from_gives = { λ unread why. why ≡ Unread unread };

    fn from(unread: Unread) -> NotDone {
        NotDone::Unread(unread)
    }
}

impl From<AllocError> for Unread {
    ghost use Rattle.std.specs.Prelude.{◌≡◌};
    ghost use Rattle.vm_c_values.specs.declared.not_done.Unread.TheVariants.{Memory};

    ghost from_gives = { λ _ why. why ≡ Memory };

    fn from(_: AllocError) -> Unread {
        Unread::Memory
    }
}
