// The children that a cancellation is passed on to.
ghost use Rattle.std.specs.Prelude.{◌≡◌, [], length, map, slice_get, option_map, Some, OnOk, OnErr};
ghost use Rattle.std.specs.Option.{option_copied};
ghost use Rattle.journal_model.specs.declared.notification.NotificationId.TheVariants.{CompletionId};
ghost use Rattle.journal_model.specs.declared.value.Value.{Value as Values};
ghost use Rattle.attempt_model.specs.Children.{child_with_value};
ghost use Rattle.vm_awaits.specs.Children.{child_told, has_child, with_child};

use bytes::ByteStr;
use indexmap::IndexMap;
use std::alloc::{AllocError, Global};
use std::marker::Model;
use std::mem::replace;

/// The children of a handler that a cancellation is passed on to, each by the completion that gives its invocation id.
///
/// Contracts see them in the order in which they came. A look-up takes the same time however many there are.
#[derive(Debug, Drop)]
pub struct Children {
    /// The invocation id of each, where it was taken.
    ids: IndexMap<u32, Option<ByteStr>>,
}

impl Model for Children {
    ghost use Rattle.std.specs.Prelude.{List, map};
    ghost use Rattle.attempt_model.specs.Children.{Child};
    ghost use Rattle.vm_awaits.specs.Children.{child_told};

    ghost Value = { List Child };

    ghost view = { λ children. map child_told children.ids.entries };
}

impl Children {
    /// There is none.
    pub fn new(alloc: Global) -> Children
        ensures { result ≡ [] }
    {
        Children {
            ids: IndexMap::new(alloc),
        }
    }

    /// How many there are.
    pub fn len(&self) -> usize
        ensures { result ≡ length self.now }
    {
        self.ids.len()
    }

    /// The child at a place: its completion, and its invocation id where that was taken.
    pub fn get(&self, place: usize) -> Option<(u32, Option<&ByteStr>)>
        ensures { option_map (λ entry. child_told (entry.0, option_copied entry.1)) result ≡ slice_get self.now place }
    {
        let (completion, id) = self.ids.get_index(place)?;
        Some((*completion, id.as_ref()))
    }

    /// Whether there is a child of this completion.
    pub fn has(&self, completion: u32) -> bool
        ensures { result ≡ has_child completion self.now }
    {
        self.ids.contains_key(&completion)
    }

    /// One more child, of which nothing was taken.
    pub fn push(&mut self, completion: u32) -> Result<(), AllocError>
        ensures ok { OnOk result (self.new ≡ with_child completion self.old) }
        ensures err { OnErr result (self.new ≡ self.old) }
    {
        drop(self.ids.insert(completion, None)?);
        Ok(())
    }

    /// The invocation id of a child was taken. Where there is no child of this completion, nothing is done.
    pub fn keep_id(&mut self, completion: u32, id: ByteStr)
        ensures { self.new ≡ map (child_with_value (Some (CompletionId completion)) (Values.InvocationId id)) self.old }
    {
        if let Some(kept) = self.ids.get_mut(&completion) {
            drop(replace(kept, Some(id)));
            return;
        }
        drop(id);
    }
}
