// The tree that a future's record is.
ghost use Rattle.std.specs.Prelude.{◌≡◌, ◌<◌, Some, length, option_map};
ghost use Rattle.std.specs.List.{slice_get};
ghost use Rattle.protocol_trees.specs.Future.{id_meant, ids_in, shape_in};

use crate::tree::{AwaitTree, AwaitTreeShape};
use bytes::ByteStr;
use protocol_records::{CombinatorType, Future};

/// The id of a notification, with a name that stands elsewhere.
#[derive(Clone, Copy, Debug)]
pub enum NotificationIdRef<'a> {
    CompletionId(u32),
    SignalId(u32),
    SignalName(&'a ByteStr),
}

fn shape_of(combinator: CombinatorType, required: u32) -> AwaitTreeShape
    ensures { result ≡ shape_in combinator required }
{
    match combinator {
        CombinatorType::FirstCompleted => AwaitTreeShape::FirstCompleted,
        CombinatorType::AllCompleted => AwaitTreeShape::AllCompleted,
        CombinatorType::FirstSucceededOrAllFailed => AwaitTreeShape::FirstSucceededOrAllFailed,
        CombinatorType::AllSucceededOrFirstFailed => AwaitTreeShape::AllSucceededOrFirstFailed,
        CombinatorType::AtLeastSucceeded => AwaitTreeShape::AtLeast(required),
        CombinatorType::Unknown | CombinatorType::Other(_) => AwaitTreeShape::Unknown,
    }
}

// The item at this place.
fn at<T>(items: &[T], index: u128) -> Option<&T>
    ensures { option_map (λ item. item.now) result ≡ slice_get items.now index }
{
    match usize::try_from(index) {
        Ok(index) => items.get(index),
        Err(_) => None,
    }
}

// The id at this place: completions first, then signals by number, then by name.
fn id_at<'a>(
    completions: &[u32],
    signals: &[u32],
    names: &'a [ByteStr],
    index: u128,
) -> NotificationIdRef<'a>
    requires { index < length (ids_in completions.now signals.now names.now) }
    ensures { slice_get (ids_in completions.now signals.now names.now) index ≡ Some (id_meant result) }
{
    if let Some(id) = at(completions, index) {
        return NotificationIdRef::CompletionId(*id);
    }
    let index = index - completions.len() as u128;
    if let Some(id) = at(signals, index) {
        return NotificationIdRef::SignalId(*id);
    }
    let index = index - signals.len() as u128;
    match at(names, index) {
        Some(name) => NotificationIdRef::SignalName(name),
        None => unreachable!(),
    }
}

impl<'a> AwaitTree for &'a Future {
    ghost use Rattle.journal_model.specs.declared.notification.NotificationId.{NotificationId};
    ghost use Rattle.protocol_records.specs.declared.future.Future.{out-Future};
    ghost use Rattle.protocol_trees.specs.Future.{leaves_in, children_in, future_tree};
    ghost use Rattle.protocol_trees.specs.FutureShape.{future_shaped};

    type Leaf = NotificationIdRef<'a>;

    ghost Meant = { NotificationId };

    ghost meant = { id_meant };

    ghost tree = { λ f. future_tree f.now };

    ghost shape_of = { λ f. shape_in (out-Future f.now).combinator_type (out-Future f.now).required };

    ghost leaves_of = { λ f. leaves_in f.now };

    ghost children_of = { λ f. children_in f.now };

    ghost is_shaped = { λ f. future_shaped f.now };

    fn shape(self) -> AwaitTreeShape {
        shape_of(self.combinator_type, self.required)
    }

    fn leaf_count(self) -> u128 {
        self.waiting_completions.len() as u128
            + self.waiting_signals.len() as u128
            + self.waiting_named_signals.len() as u128
    }

    fn leaf(self, index: u128) -> NotificationIdRef<'a> {
        id_at(
            self.waiting_completions.as_slice(),
            self.waiting_signals.as_slice(),
            self.waiting_named_signals.as_slice(),
            index,
        )
    }

    fn child_count(self) -> usize {
        self.nested_futures.len()
    }

    fn child(self, index: usize) -> &'a Future {
        &self.nested_futures.as_slice()[index]
    }
}
