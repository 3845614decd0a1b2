// The handle: a pointer that owns a box, or null.
ghost use Rattle.std.specs.Prelude.{◌≡◌};
ghost use Rattle.std.specs.Option.{MatchOption};
ghost use Rattle.std.specs.declared.option.Option.{Option};
ghost use Rattle.std.specs.declared.option.Option.TheVariants.{None, Some};
ghost use Rattle.std.specs.Coded.{coded_option};
ghost use Rattle.vm_c.specs.declared.held.Held.{Held};
ghost use Rattle.vm_c.specs.contracts.held.Held.{the_row as HeldRow};
ghost use Rattle.vm_c.specs.Calls.{IsStatus, done_of, reply_in};

use crate::held::Held;
use crate::status::status_of;
use bytes::Bytes;
use handle_slot::{Loose, Slot};
use std::alloc::Global;
use std::marker::Model;
use std::mem;
use vm_c_values::NotDone;

/// What C holds.
#[repr(C)]
pub struct Handle {
    at: *mut u8,
    alloc: Global,
    pub ghost value: { Option Held } by { coded_option HeldRow.coded },
}

impl Model for Handle {
    ghost use Rattle.handle_slot.specs.SlotOwnership.{held};
    ghost use Rattle.vm_c.specs.contracts.held.Held.{the_row};

    ghost also_owns = { λ h. held h.alloc the_row h.at h.value };
}

impl Handle {
    // The slot as a handle.
    fn of(slot: Slot<Held>) -> Handle
        ensures { result.value ≡ slot.value }
    {
        let Slot { at, alloc } = slot;
        Handle {
            at: at as *mut u8,
            alloc,
        }
    }

    // The handle as a slot.
    fn into_slot(self) -> Slot<Held>
        ensures { result.value ≡ self.value }
    {
        let Handle { at, alloc } = self;
        Slot {
            at: at as *mut Held,
            alloc,
        }
    }

    /// What it has, and then no more.
    pub(crate) fn take(&mut self, alloc: Global) -> Option<Box<Held>>
        ensures taken { MatchOption result (self.old.value ≡ None) (λ b. self.old.value ≡ Some b.value) }
        ensures left { self.new.value ≡ None }
    {
        let had = mem::replace(self, Handle::of(Slot::empty(alloc)));
        match had.into_slot().into_loose() {
            Some(loose) => Some(loose.into_box()),
            None => None,
        }
    }

    /// Puts a machine into a handle that has none.
    pub(crate) fn put(&mut self, held: Box<Held>)
        ensures { self.new.value ≡ Some held.value }
    {
        let none = mem::replace(self, Handle::of(Slot::full(Loose::of(held))));
        drop(none);
    }

    /// Puts a machine back after a call, with what the call has answered as its reply, and tells the status.
    pub(crate) fn put_back(&mut self, mut held: Box<Held>, done: Result<Bytes, NotDone>) -> u32
        ensures put { self.new.value ≡ Some (record { machine = held.value.machine; reply = reply_in done }) }
        ensures status { IsStatus result }
        ensures done { done_of result (reply_in done) ≡ done }
    {
        let status = status_of(&done);
        held.answer(done);
        self.put(held);
        status
    }
}

impl Drop for Handle {
    fn drop(self) {
        match self.into_slot().into_loose() {
            Some(loose) => drop(loose.into_box()),
            None => (),
        }
    }
}
