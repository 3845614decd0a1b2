//! Why what is kept is not read.

use std::alloc::AllocError;

/// Why a payload that is kept gave nothing.
#[derive(Clone, Copy, Debug, PartialEq, Eq)]
pub enum KeptFault {
    /// An allocation was refused.
    OutOfMemory,
    /// It is no payload that a store keeps there.
    Foreign,
}

impl From<AllocError> for KeptFault {
    ghost use Rattle.store_frames.specs.declared.kept_fault.KeptFault.TheVariants.{OutOfMemory};
    ghost use Rattle.std.specs.Prelude.{◌≡◌};

    ghost from_gives = { λ _ e. e ≡ OutOfMemory };

    fn from(_e: AllocError) -> KeptFault {
        KeptFault::OutOfMemory
    }
}
