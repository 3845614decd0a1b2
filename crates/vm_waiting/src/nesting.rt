// How deep a future is nested.
ghost use Rattle.std.specs.Prelude.{◌≡◌};
ghost use Rattle.journal_model.specs.Future.{tree_of};
ghost use Rattle.vm_waiting.specs.SuspensionFrames.{is_nested_within};

use journal_model::UnresolvedFuture;
use vm_awaits::tree::{Opened, open};

/// Whether nodes stand in no more than so many levels. It looks no deeper.
pub(crate) fn is_nested_within(future: &UnresolvedFuture, levels: u32) -> bool
    ensures { result ≡ is_nested_within levels (tree_of future.now) }
{
    match open(future) {
        Opened::Leaf(_) => true,
        Opened::Node(_, children) => {
            if levels == 0 {
                return false;
            }
            for child in children {
                if !is_nested_within(child, levels - 1) {
                    return false;
                }
            }
            true
        }
    }
}
