// A box that may be none, as a pointer that may be null.
ghost use Rattle.std.specs.Prelude.{◌≡◌};
ghost use Rattle.std.specs.Option.{MatchOption};
ghost use Rattle.std.specs.declared.option.Option.{Option};
ghost use Rattle.std.specs.declared.option.Option.TheVariants.{None, Some};
ghost use Rattle.std.specs.Coded.{coded_option};
ghost use Rattle.handle_slot.specs.SlotOwnership.{held};

use crate::Loose;
use std::alloc::Global;
use std::marker::Model;
use std::ptr::null_mut;

/// A box, or none where the pointer is null.
pub struct Slot<T> {
    pub at: *mut T,
    pub alloc: Global,
    pub ghost value: { Option T } by { coded_option T.code },
}

impl<T> Model for Slot<T> {
    ghost also_owns = { λ s. held s.alloc T.row s.at s.value };
}

impl<T> Slot<T> {
    /// None.
    pub fn empty(alloc: Global) -> Slot<T>
        ensures { result.value ≡ None }
    {
        Slot {
            at: null_mut(),
            alloc,
        }
    }

    /// One.
    pub fn full(value: Loose<T, Global>) -> Slot<T>
        ensures { result.value ≡ Some value.value }
    {
        let Loose { at, alloc } = value;
        Slot { at, alloc }
    }

    /// What it has.
    pub fn into_loose(self) -> Option<Loose<T, Global>>
        ensures { MatchOption result (self.value ≡ None) (λ l. self.value ≡ Some l.value) }
    {
        let Slot { at, alloc } = self;
        if at.is_null() {
            None
        } else {
            Some(Loose { at, alloc })
        }
    }
}
