// Whether a future has a handle at all.
ghost use Rattle.std.specs.Prelude.{◌≡◌};
ghost use Rattle.journal_model.specs.Future.{tree_of};
ghost use Rattle.vm_waiting.specs.SuspensionFrames.{holds_a_leaf};

use journal_model::UnresolvedFuture;
use vm_awaits::tree::{Opened, open};

/// Whether there is a handle in a future.
pub(crate) fn has_handle(future: &UnresolvedFuture) -> bool
    ensures { result ≡ holds_a_leaf (tree_of future.now) }
{
    match open(future) {
        Opened::Leaf(_) => true,
        Opened::Node(_, children) => {
            for child in children {
                if has_handle(child) {
                    return true;
                }
            }
            false
        }
    }
}
