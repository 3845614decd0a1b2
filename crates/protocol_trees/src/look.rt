// Looking at a tree.
ghost use Rattle.std.specs.Prelude.{◌≡◌};
ghost use Rattle.journal_model.specs.AwaitTree.{AwaitState as States, await_state, is_awake};
ghost use Rattle.protocol_trees.specs.Shape.{state_meant};
ghost use Rattle.protocol_trees.specs.Look.{AreStates, IsLooked};

use crate::tally::{Looked, Tally, is_completed};
use crate::tree::{AwaitState, AwaitTree};

// Looks at each node once, its leaves first.
fn look<T: AwaitTree, F: Fn(T::Leaf) -> AwaitState>(tree: T, leaves: &F) -> Looked
    requires { F.IsAlwaysCallable leaves.now }
    ensures { (states : T.Meant → States) → AreStates (F.post leaves.now) T.meant states → IsLooked (T.tree tree) states result }
{
    let shape = tree.shape();
    let mut tally = Tally::new(shape);
    for index in 0..tree.leaf_count() {
        let state = leaves(tree.leaf(index));
        let has_ended = false;
        tally = tally.with(shape, Looked { state, has_ended });
    }
    for place in 0..tree.child_count() {
        tally = tally.with(shape, look(tree.child(place), leaves));
    }
    tally.looked(shape)
}

/// What a tree has come to, where its leaves have what `leaves` says. It takes no memory, but for a call in a call for each
/// level of the tree.
pub fn await_state<T: AwaitTree, F: Fn(T::Leaf) -> AwaitState>(tree: T, leaves: F) -> AwaitState
    requires { F.IsAlwaysCallable leaves }
    ensures { (states : T.Meant → States) → AreStates (F.post leaves) T.meant states → state_meant result ≡ await_state (T.tree tree) states }
{
    look(tree, &leaves).state
}

/// Whether a tree is awake: it is completed, or some node in it has a child that ends it at once.
pub fn is_awake<T: AwaitTree, F: Fn(T::Leaf) -> AwaitState>(tree: T, leaves: F) -> bool
    requires { F.IsAlwaysCallable leaves }
    ensures { (states : T.Meant → States) → AreStates (F.post leaves) T.meant states → result ≡ is_awake (T.tree tree) states }
{
    let looked = look(tree, &leaves);
    is_completed(looked.state) | looked.has_ended
}
